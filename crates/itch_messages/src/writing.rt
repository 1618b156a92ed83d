//! Writing a body.
#![tactic(auto, using(crate::proofs::Laws::drafts))]

ghost use Rattle.std.specs.Prelude.{◌≡◌, ◌≤◌, ◌<◌, ◌^◌, ◌+◌, ◌∷◌, ◌++◌, [], ℕ, List, false, length, OnErr, OnOk, vec_capacity, vec_len};
ghost use Rattle.itch_messages.specs.Body.{IsBodyOf, is_skipped};
ghost use Rattle.itch_messages.specs.Layout.{number_bytes};

use crate::draft::Draft;
use crate::header::Header;
use crate::message::{
    Add, Broken, Cross, Directory, Executed, ExecutedAt, Message, Replace, Trade,
};
use base::OutOfMemory;
use std::alloc::Allocator;

/// The type's byte and the header.
fn headed(kind: u8, header: Header) -> Draft
    ensures items { result ≡ (kind ∷ [])
        ++ number_bytes 2 header.locate ++ number_bytes 2 header.tracking ++ number_bytes 6 header.time }
    ensures len { length result ≡ 11 }
    ensures fits { (header.locate < 2 ^ 16) × (header.tracking < 2 ^ 16) × (header.time < 2 ^ 48) }
{
    let mut draft = Draft::new();
    draft.put(&[kind]);
    draft.put_number(2, header.locate.into());
    draft.put_number(2, header.tracking.into());
    draft.put_number(6, header.time);
    draft
}

/// What A and F share.
fn order(kind: u8, message: &Add) -> Draft
    ensures items { let m = message.now in result ≡ (kind ∷ [])
        ++ number_bytes 2 m.header.locate ++ number_bytes 2 m.header.tracking ++ number_bytes 6 m.header.time
        ++ number_bytes 8 m.order_no ++ number_bytes 1 m.side ++ number_bytes 4 m.shares ++ m.stock
        ++ number_bytes 4 m.price }
    ensures len { length result ≡ 36 }
    ensures fits { let m = message.now in
        (m.header.locate < 2 ^ 16) × (m.header.tracking < 2 ^ 16) × (m.header.time < 2 ^ 48)
        × (m.order_no < 2 ^ 64) × (m.side < 2 ^ 8) × (m.shares < 2 ^ 32) × (length m.stock ≡ 8)
        × (m.price < 2 ^ 32) }
{
    let mut draft = headed(kind, message.header);
    draft.put_number(8, message.order_no);
    draft.put_number(1, message.side.into());
    draft.put_number(4, message.shares.into());
    draft.put(&message.stock);
    draft.put_number(4, message.price.into());
    draft
}

/// A body of type A, or with an attribution of type F.
fn add(message: &Add) -> Draft
    ensures { IsBodyOf (Message.Add message.now) result }
{
    match &message.attribution {
        None => order(b'A', message),
        Some(attribution) => {
            let mut draft = order(b'F', message);
            draft.put(attribution);
            draft
        }
    }
}

/// A body of type E.
fn executed(message: &Executed) -> Draft
    ensures { IsBodyOf (Message.Executed message.now) result }
{
    let mut draft = headed(b'E', message.header);
    draft.put_number(8, message.order_no);
    draft.put_number(4, message.shares.into());
    draft.put_number(8, message.trade_no);
    draft
}

/// A body of type C.
fn executed_at(message: &ExecutedAt) -> Draft
    ensures { IsBodyOf (Message.ExecutedAt message.now) result }
{
    let mut draft = headed(b'C', message.header);
    draft.put_number(8, message.order_no);
    draft.put_number(4, message.shares.into());
    draft.put_number(8, message.trade_no);
    draft.put_number(1, message.printable.into());
    draft.put_number(4, message.price.into());
    draft
}

/// A body of type U.
fn replace(message: &Replace) -> Draft
    ensures { IsBodyOf (Message.Replace message.now) result }
{
    let mut draft = headed(b'U', message.header);
    draft.put_number(8, message.old_no);
    draft.put_number(8, message.new_no);
    draft.put_number(4, message.shares.into());
    draft.put_number(4, message.price.into());
    draft
}

/// A body of type P.
fn trade(message: &Trade) -> Draft
    ensures { IsBodyOf (Message.Trade message.now) result }
{
    let mut draft = headed(b'P', message.header);
    draft.put_number(8, message.order_no);
    draft.put_number(1, message.side.into());
    draft.put_number(4, message.shares.into());
    draft.put(&message.stock);
    draft.put_number(4, message.price.into());
    draft.put_number(8, message.trade_no);
    draft
}

/// A body of type Q.
fn cross(message: &Cross) -> Draft
    ensures { IsBodyOf (Message.Cross message.now) result }
{
    let mut draft = headed(b'Q', message.header);
    draft.put_number(8, message.shares);
    draft.put(&message.stock);
    draft.put_number(4, message.price.into());
    draft.put_number(8, message.trade_no);
    draft.put_number(1, message.cross_type.into());
    draft
}

/// A body of type B.
fn broken(message: &Broken) -> Draft
    ensures { IsBodyOf (Message.Broken message.now) result }
{
    let mut draft = headed(b'B', message.header);
    draft.put_number(8, message.trade_no);
    draft
}

/// A body of type R.
fn directory(message: &Directory) -> Draft
    ensures { IsBodyOf (Message.Directory message.now) result }
{
    let mut draft = headed(b'R', message.header);
    draft.put(&message.stock);
    draft.put(&message.rest);
    draft
}

/// The body of a message, and nothing for `Skipped`.
#[tactic(auto, unfolding(crate::specs::Body::IsBodyOf, crate::specs::Layout::length_of))]
fn draft_of(message: &Message) -> Draft
    ensures { IsBodyOf message.now result }
{
    match message {
        Message::Add(message) => add(message),
        Message::Executed(message) => executed(message),
        Message::ExecutedAt(message) => executed_at(message),
        Message::Replace(message) => replace(message),
        Message::Trade(message) => trade(message),
        Message::Cross(message) => cross(message),
        Message::Broken(message) => broken(message),
        Message::Directory(message) => directory(message),
        Message::Skipped => Draft::new(),
    }
}

/// Appends the body of a message, by the table of TotalView-ITCH 5.0, section 1, without the length
/// that comes before it in a day file. A refused growth leaves `out` as it was.
pub fn append<A: Allocator>(out: &mut Vec<u8, A>, message: &Message) -> Result<(), OutOfMemory>
    requires { is_skipped message.now ≡ false }
    ensures ok { OnOk result ((body : List ℕ) × IsBodyOf message.now body
        × (out.new.items ≡ out.old.items ++ body)) }
    ensures err { OnErr result (out.new.items ≡ out.old.items) }

    // It is refused only if the room was short.
    ensures full { OnErr result ((body : List ℕ) × IsBodyOf message.now body
        × (vec_capacity out.old < vec_len out.old + length body)) }

    // The longest body is a trade's.
    ensures short { OnOk result (length out.new.items ≤ length out.old.items + 44) }
{
    let draft = draft_of(message);
    out.extend_from_slice(draft.bytes())
}

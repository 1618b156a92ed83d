//! Days as text: a word for each frame.
ghost use Rattle.std.specs.Prelude.{◌<◌, IfOk};

use crate::Form;
use std::alloc::Global;
use std::io;
use std::str::FromStr;

/// The error of a text that isn't written as its reader wants it.
pub fn not_written_so() -> io::Error {
    io::Error::from(io::ErrorKind::InvalidData)
}

/// Appends the frames of a text, which has a word for each: a form as `E(1,40,9)`, behind which `@09:30:03` gives it
/// another time and `#8` another locate, or bytes in hexadecimal, as `00015a`, behind which `*9` has them nine times.
pub fn append_day(alloc: Global, out: &mut Vec<u8>, text: &str) -> io::Result<()> {
    for word in text.split_whitespace() {
        if word.contains('(') {
            append_form(alloc, out, word)?;
        } else {
            append_bytes(out, word)?;
        }
    }
    Ok(())
}

/// Appends the frame of a form, perhaps with another time or locate.
fn append_form(alloc: Global, out: &mut Vec<u8>, word: &str) -> io::Result<()> {
    let (word, locate) = parted(word, '#');
    let (word, time) = parted(word, '@');
    let place = out.len();
    form_of(alloc, word)?.append_to(alloc, out)?;
    if let Some(time) = time {
        let bytes = nanoseconds_of(time)?.to_be_bytes();
        overwrite(out.as_mut_slice(), place, 7, &bytes[2..]);
    }
    if let Some(locate) = locate {
        let bytes = number::<u16>(locate)?.to_be_bytes();
        overwrite(out.as_mut_slice(), place, 3, &bytes);
    }
    Ok(())
}

/// A word up to its last mark, and what is behind the mark, if it has one.
fn parted(word: &str, mark: char) -> (&str, Option<&str>) {
    match word.rsplit_once(mark) {
        Some((front, back)) => (front, Some(back)),
        None => (word, None),
    }
}

/// Writes bytes over those that stand so far behind a place.
pub fn overwrite(out: &mut [u8], place: usize, behind: usize, bytes: &[u8]) {
    for (byte, new) in out.iter_mut().skip(place).skip(behind).zip(bytes) {
        *byte = *new;
    }
}

/// The name of a word as `E(1,40,9)`, and what it has in brackets, between commas.
pub fn fields_of(alloc: Global, word: &str) -> io::Result<Vec<&str>> {
    let Some(word) = word.strip_suffix(')') else {
        return Err(not_written_so());
    };
    Ok(word.split(['(', ',']).collect(alloc)?)
}

/// The form of a word.
fn form_of(alloc: Global, word: &str) -> io::Result<Form> {
    let fields = fields_of(alloc, word)?;
    order_of(alloc, fields.as_slice())
}

/// The form of a name and its fields.
fn order_of(alloc: Global, fields: &[&str]) -> io::Result<Form> {
    match *fields {
        ["R", locate, stock] => Ok(Form::R(number(locate)?, stock_of(alloc, stock)?)),
        ["A", order_no, price] => Ok(Form::A(number(order_no)?, number(price)?)),
        ["F", order_no, price] => Ok(Form::F(number(order_no)?, number(price)?)),
        ["U", old, new, price] => Ok(Form::U(number(old)?, number(new)?, number(price)?)),
        ["B", trade_no] => Ok(Form::B(number(trade_no)?)),
        _ => sale_of(fields),
    }
}

/// The same, but of no order, break or directory entry.
fn sale_of(fields: &[&str]) -> io::Result<Form> {
    match *fields {
        ["E", order_no, shares, trade_no] => Ok(Form::E(
            number(order_no)?,
            number(shares)?,
            number(trade_no)?,
        )),
        ["C", order_no, shares, trade_no, printable, price] => Ok(Form::C(
            number(order_no)?,
            number(shares)?,
            number(trade_no)?,
            printable.as_bytes().first().copied().unwrap_or(b' '),
            number(price)?,
        )),
        ["P", shares, price, trade_no] => {
            Ok(Form::P(number(shares)?, number(price)?, number(trade_no)?))
        }
        ["Q", shares, price, trade_no] => {
            Ok(Form::Q(number(shares)?, number(price)?, number(trade_no)?))
        }
        _ => Err(not_written_so()),
    }
}

/// A decimal number.
pub fn number<N: FromStr>(text: &str) -> io::Result<N>
where
    N::Err: Drop,
{
    match text.parse() {
        Ok(number) => Ok(number),
        Err(_) => Err(not_written_so()),
    }
}

/// The eight bytes of a stock, filled up with spaces.
fn stock_of(alloc: Global, text: &str) -> io::Result<[u8; 8]> {
    let mut bytes = Vec::new(alloc);
    append_text(&mut bytes, text)?;
    let mut stock = [b' '; 8];
    overwrite(&mut stock, 0, 0, bytes.as_slice());
    Ok(stock)
}

/// Appends the bytes of a text, in which `\x2c` stands for the byte 2c.
pub fn append_text(out: &mut Vec<u8>, text: &str) -> io::Result<()> {
    let mut is_first = true;
    for part in text.split("\\x") {
        let rest = if is_first {
            part
        } else {
            match part.split_at_checked(2) {
                Some((digits, rest)) => {
                    append_bytes(out, digits)?;
                    rest
                }
                None => return Err(not_written_so()),
            }
        };
        out.extend_from_slice(rest.as_bytes())?;
        is_first = false;
    }
    Ok(())
}

/// Appends bytes that are written in hexadecimal, as often as a number behind them says.
fn append_bytes(out: &mut Vec<u8>, word: &str) -> io::Result<()> {
    let (digits, times) = parted(word, '*');
    for _ in 0..number::<u32>(times.unwrap_or("1"))? {
        for pair in digits.as_bytes().chunks(2) {
            let [high, low] = *pair else {
                return Err(not_written_so());
            };
            out.push(digit_of(high)? * 16 + digit_of(low)?)?;
        }
    }
    Ok(())
}

fn digit_of(letter: u8) -> io::Result<u8>
    ensures { IfOk result (λ digit. digit < 16) }
{
    match letter {
        b'0'..=b'9' => Ok(letter - b'0'),
        b'a'..=b'f' => Ok(letter - b'a' + 10),
        _ => Err(not_written_so()),
    }
}

/// The nanoseconds of a time, as `09:30:03` or `09:30:01.000000005`.
fn nanoseconds_of(text: &str) -> io::Result<u64> {
    let (clock, rest) = parted(text, '.');
    let mut seconds = 0u64;
    for part in clock.split(':') {
        seconds = seconds.saturating_mul(60).saturating_add(number(part)?);
    }
    let rest = number(rest.unwrap_or("0"))?;
    Ok(seconds.saturating_mul(1_000_000_000).saturating_add(rest))
}

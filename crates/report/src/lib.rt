// The two texts of fixed form, written into a lent place.
#![tactic(auto)]

ghost use Rattle.std.specs.Prelude.{◌≡◌, ◌<◌, ◌≤◌, length};
ghost use Rattle.report.specs.Places.{WrittenInto, OneOutcome};
ghost use Rattle.report.specs.Texts.{digit, digits_in, notice_text, line_text};
ghost use Rattle.report.specs.Texts.{Examples, Sizes, SameDigits, DigitsReadBack, ReadBack};

use refusal::Refusal;

// The digit of a value below 16.
fn digit_of(value: u16) -> u8
    requires { value < 16 }
    ensures { result ≡ digit value }
{
    if value < 10 {
        b'0' + value as u8
    } else {
        b'a' + (value - 10) as u8
    }
}

// The last N digits of a value.
fn digits<const BASE: u16, const N: usize>(value: u16) -> [u8; N]
    requires { (2 ≤ BASE) × (BASE ≤ 16) }
    ensures { result ≡ digits_in BASE N value }
{
    let mut digits = [b'0'; N];
    let mut rest = value;
    for place in (0..N).rev() {
        digits[place] = digit_of(rest % BASE);
        rest /= BASE;
    }
    digits
}

// `refused NN RR`, the number and the row of a refusal in two digits each, as a line.
fn notice_bytes(number: u8, row: u8) -> [u8; 14]
    requires { (number < 100) × (row < 100) }
    ensures { result ≡ notice_text number row }
{
    let mut text = *b"refused 00 00\n";
    text[8..10].copy_from_slice(&digits::<10, 2>(number.into()));
    text[11..13].copy_from_slice(&digits::<10, 2>(row.into()));
    text
}

// `CCC LLLL HHHH open` as a line: the accepted count, and its low and its high end in hexadecimal;
// `shut` stands for `open` where the two ends are equal.
fn line_bytes(count: u16, low: u16, high: u16) -> [u8; 19]
    requires { count < 1000 }
    ensures text { result ≡ line_text count low high }
    ensures size { length (line_text count low high) ≡ 19 }
{
    let mut text = *b"000 0000 0000 open\n";
    text[0..3].copy_from_slice(&digits::<10, 3>(count));
    text[4..8].copy_from_slice(&digits::<16, 4>(low));
    text[9..13].copy_from_slice(&digits::<16, 4>(high));
    text[14..18].copy_from_slice(if low == high { b"shut" } else { b"open" });
    text
}

// Writes a text to the front of the place, if it fits in there.
fn write(place: &mut [u8], text: &[u8]) -> Result<usize, Refusal>
    ensures { WrittenInto text.now (length text.now ≤ length place.old) place.old place.new result }
{
    if place.len() < text.len() {
        return Err(Refusal::Place);
    }
    place[0..text.len()].copy_from_slice(text);
    Ok(text.len())
}

// Writes the notice of a number and a row to the front of a place.
pub fn notice(place: &mut [u8], number: u8, row: u8) -> Result<usize, Refusal>
    ensures { WrittenInto (notice_text number row) ((14 ≤ length place.old) × (number ≤ 99) × (row ≤ 99)) place.old place.new result }
{
    if number > 99 || row > 99 {
        return Err(Refusal::Place);
    }
    write(place, &notice_bytes(number, row))
}

// Writes the line of a count and its two ends to the front of a place.
pub fn line(place: &mut [u8], count: u16, low: u16, high: u16) -> Result<usize, Refusal>
    ensures { WrittenInto (line_text count low high) ((19 ≤ length place.old) × (count ≤ 256)) place.old place.new result }
{
    if count > 256 {
        return Err(Refusal::Place);
    }
    write(place, &line_bytes(count, low, high))
}

// Of the texts themselves: some examples, that each has one size, that their digits are those of the number in its base and read
// back as that number, and that what becomes of a place is settled.
fn texts_stand()
    ensures examples { Examples }
    ensures sizes { Sizes }
    ensures same_digits { SameDigits }
    ensures digits_read_back { DigitsReadBack }
    ensures read_back { ReadBack }
    ensures one_outcome { OneOutcome }
{}

#[cfg(test)]
mod tests {
    use super::*;

    #[test]
    fn a_notice_leaves_the_rest(rt: HostRuntime) {
        let mut place = *b"................";
        assert_eq!(rt; notice(&mut place, 4, 2), Ok(14));
        assert_eq!(rt; place, *b"refused 04 02\n..");
        assert_eq!(rt; notice(&mut place, 99, 99), Ok(14));
        assert_eq!(rt; place, *b"refused 99 99\n..");
    }

    #[test]
    fn no_notice_changes_nothing(rt: HostRuntime) {
        let mut place = *b"..............";
        assert_eq!(rt; notice(&mut place[0..13], 4, 2), Err(Refusal::Place));
        assert_eq!(rt; notice(&mut place, 100, 2), Err(Refusal::Place));
        assert_eq!(rt; notice(&mut place, 4, 100), Err(Refusal::Place));
        assert_eq!(rt; place, *b"..............");
        assert_eq!(rt; notice(&mut place, 4, 2), Ok(14));
    }

    #[test]
    fn a_line_leaves_the_rest(rt: HostRuntime) {
        let mut place = *b"....................";
        assert_eq!(rt; line(&mut place, 2, 1, 0xffff), Ok(19));
        assert_eq!(rt; place, *b"002 0001 ffff open\n.");
        assert_eq!(rt; line(&mut place, 4, 7, 7), Ok(19));
        assert_eq!(rt; place, *b"004 0007 0007 shut\n.");
        assert_eq!(rt; line(&mut place, 256, 0x9abc, 0x0def), Ok(19));
        assert_eq!(rt; place, *b"256 9abc 0def open\n.");
    }

    #[test]
    fn no_line_changes_nothing(rt: HostRuntime) {
        let mut place = *b"...................";
        assert_eq!(rt; line(&mut place[0..18], 2, 1, 2), Err(Refusal::Place));
        assert_eq!(rt; line(&mut place, 257, 1, 2), Err(Refusal::Place));
        assert_eq!(rt; place, *b"...................");
        assert_eq!(rt; line(&mut place, 256, 1, 2), Ok(19));
    }
}

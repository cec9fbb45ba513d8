// The header of a sheet, and how many bytes a sheet takes.
ghost use Rattle.std.specs.Prelude.{◌≡◌, ◌+◌, ◌*◌, ◌<◌, ◌≤◌, true, [], ◌∷◌, length, decimal};
ghost use Rattle.sheet.specs.Sheet.{sheet_sized, header, sheet_length, put, Put, length_answer};
ghost use Rattle.sheet.specs.Faults.{told};

use crate::fault::SheetFault;
use crate::size::Size;
use film::bytes::row_length;
use film::numbers::Numbers;

// How many digits write a number.
fn digits(n: u32) -> usize
    ensures is { result ≡ length (decimal n) }
    ensures few { result ≤ 10 }
{
    n.max(1).ilog10() as usize + 1
}

// A film's sheet has the film's size.
impl From<Numbers> for Size {
    ghost from_gives = { λ n s. (s.width ≡ n.width) × (s.height ≡ n.height) };

    fn from(n: Numbers) -> Size {
        Size {
            width: n.width,
            height: n.height,
        }
    }
}

impl Size {
    // Whether a sheet may have this size.
    pub(crate) fn is_allowed(self) -> bool
        ensures { result ≡ sheet_sized self.width self.height }
    {
        (1..=30000).contains(&self.width) && (1..=30000).contains(&self.height)
    }

    // The bytes of a header.
    pub(crate) fn header_length(self) -> usize
        ensures is { result ≡ length (header self.width self.height) }
        ensures small { result ≤ 25 }
    {
        digits(self.width) + digits(self.height) + 5
    }

    // The bytes of a whole sheet.
    pub(crate) fn whole_length(self) -> usize
        requires { sheet_sized self.width self.height ≡ true }
        ensures { result ≡ sheet_length self.width self.height }
    {
        self.header_length() + self.height as usize * row_length(self.width)
    }
}

// How many bytes a sheet of this size takes.
pub fn sheet_length(size: Size) -> Result<usize, SheetFault>
    ensures { told result ≡ length_answer size.width size.height }
{
    if !size.is_allowed() {
        return Err(SheetFault::Limits);
    }
    Ok(size.whole_length())
}

// How many bytes the sheet of a film of these numbers takes.
pub fn film_length(n: Numbers) -> usize
    ensures { result ≡ sheet_length n.width n.height }
{
    Size::from(n).whole_length()
}

// An output, and the place where the next byte goes.
#[derive(Drop)]
struct Writer<'a> {
    out: &'a mut [u8],
    at: usize,
}

impl<'a> Writer<'a> {
    // Puts bytes into the output.
    fn put(&mut self, bytes: &[u8])
        requires { self.old.at + length bytes.now ≤ length self.old.out.now }
        ensures put { Put self.old.at bytes.now self.old.out.now self.new.out.now self.new.at }
        ensures long { length self.new.out.now ≡ length self.old.out.now }
        ensures lent { self.new.out.ghost_name ≡ self.old.out.ghost_name }
    {
        let end = self.at + bytes.len();
        self.out[self.at..end].copy_from_slice(bytes);
        self.at = end;
    }

    // Puts a number's digits into the output.
    fn put_number(&mut self, n: u32)
        requires { self.old.at + length (decimal n) ≤ length self.old.out.now }
        ensures put { Put self.old.at (decimal n) self.old.out.now self.new.out.now self.new.at }
        ensures long { length self.new.out.now ≡ length self.old.out.now }
        ensures lent { self.new.out.ghost_name ≡ self.old.out.ghost_name }
    {
        if n >= 10 {
            self.put_number(n / 10);
        }
        self.put(&[b'0' + (n % 10) as u8]);
    }
}

// Puts the header at the front of an output.
pub(crate) fn put_header(out: &mut [u8], size: Size)
    requires { sheet_length size.width size.height ≤ length out.old }
    ensures { out.new ≡ put 0 (header size.width size.height) out.old }
{
    let mut writer = Writer { out, at: 0 };
    writer.put(b"P4\n");
    writer.put_number(size.width);
    writer.put(b" ");
    writer.put_number(size.height);
    writer.put(b"\n");
}

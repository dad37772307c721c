// The fields of a record: single bytes, and names.
ghost use Rattle.std.specs.Prelude.{◌≡◌, ◌↔◌, IsTrue};
ghost use Rattle.sheet.specs.Names.{name_byte, LawfulLength};
ghost use Rattle.sheet.specs.Steps.{ByteRead, NameBytesRead, NameRead};

use crate::fault::Flaw;
use crate::reader::Reader;
use crate::record::Name;

const MAX_NAME: usize = 32;

fn is_name_byte(b: u8) -> bool
    ensures { result ≡ name_byte b }
{
    b.is_ascii_alphanumeric() || matches!(b, b'-' | b'_' | b'.')
}

fn is_name_length(len: usize) -> bool
    ensures { IsTrue result ↔ LawfulLength len }
{
    (1..=MAX_NAME).contains(&len)
}

// A name of length `len` that begins these bytes. Those that are there are judged before their number is, so that a
// bad name is told from a cut one.
fn name_bytes(bytes: &[u8], len: usize) -> Result<&[u8], Flaw>
    ensures { NameBytesRead bytes.now len result }
{
    if !is_name_length(len) {
        return Err(Flaw::BadLength);
    }
    if !bytes.iter().take(len).all(|b| is_name_byte(*b)) {
        return Err(Flaw::BadCharacter);
    }
    bytes.get(..len).ok_or(Flaw::Cut)
}

impl<'a> Reader<'a> {
    pub(super) fn byte(&mut self) -> Result<u8, Flaw>
        ensures { ByteRead self.old result self.new }
    {
        let b = *self.sheet.get(self.at).ok_or(Flaw::Cut)?;
        self.at += 1;
        Ok(b)
    }

    pub(super) fn name(&mut self) -> Result<Name<'a>, Flaw>
        ensures { NameRead self.old result self.new }
    {
        let len = usize::from(self.byte()?);
        let place = self.at;
        let bytes = name_bytes(&self.sheet[place..], len)?;
        self.at += len;
        Ok(Name { place, bytes })
    }
}

// A reader goes through a sheet record by record.
ghost use Rattle.std.specs.Prelude.{◌≤◌, length};

// The whole sheet, since places are told from its start, and the index of the first byte that is not yet read. A reader is copied to try a
// record, and becomes the copy if there is one.
#[derive(Clone, Copy)]
pub struct Reader<'a> {
    sheet: &'a [u8],
    at: usize,
    ghost within: { at ≤ length sheet.now },
}

mod fields;
mod kind;
mod next;
mod records;

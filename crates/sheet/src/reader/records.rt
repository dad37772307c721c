// The records of a sheet.
ghost use Rattle.std.specs.Prelude.{◌<◌, length};
ghost use Rattle.sheet.specs.Kinds.{map_of};
ghost use Rattle.sheet.specs.Readers.{rest};
ghost use Rattle.sheet.specs.Steps.{ContentRead, RecordRead};

use crate::fault::Flaw;
use crate::reader::Reader;
use crate::reader::kind::Kind;
use crate::record::{Content, Record};

impl<'a> Reader<'a> {
    // The record that begins where the reader stands.
    pub(super) fn record(&mut self) -> Result<Record<'a>, Flaw>
        requires { 0 < length (rest self.old) }
        ensures { RecordRead self.old result self.new }
    {
        let place = self.at;
        let kind = Kind::try_from(self.byte()?)?;
        let content = self.content(kind)?;
        Ok(Record { place, content })
    }

    // The fields of a record of this kind. Its map byte is read already.
    fn content(&mut self, kind: Kind) -> Result<Content<'a>, Flaw>
        ensures { ContentRead (map_of kind) self.old result self.new }
    {
        match kind {
            Kind::Compartment => Ok(Content::Compartment { name: self.name()? }),
            Kind::Entity => Ok(Content::Entity {
                compartment: self.name()?,
                entity: self.byte()?,
            }),
            Kind::Capability => Ok(Content::Capability {
                holder: self.byte()?,
                target: self.byte()?,
                rights: self.byte()?,
            }),
            Kind::Arrow => Ok(Content::Arrow {
                from: self.name()?,
                to: self.name()?,
            }),
        }
    }
}

// Name tables: whether the ends are right, and the names in turn. Internal: callers see to what a check asks.
#![tactic(auto)]

ghost use Rattle.std.specs.Prelude.{◌≡◌, true, ◌+◌, ◌<◌, length};
ghost use Rattle.vmd_format.specs.Parts.{name_check, table_right, names_of, each};
ghost use Rattle.vmd_names.specs.Meaning.{check_of};
ghost use Rattle.vmd_check_tables.specs.Meaning.{table_is};

use vmd_base::VmdRefusal;
use vmd_presence::VmdPresence;

// The bytes of names one after another, and where each name ends, as C lends them. They are lent before they are checked, so that
// the ends are right stays a clause where it is needed.
#[derive(Clone, Copy)]
pub struct VmdNameTable<'a> {
    pub bytes: &'a [u8],
    pub ends: &'a [u32],
}

impl<'a> VmdNameTable<'a> {
    // How many names there are.
    pub fn len(&self) -> usize
        ensures { result ≡ length self.now.ends.now }
    {
        self.ends.len()
    }

    // Whether the ends never fall, and the last is the length of the bytes.
    pub fn is_right(&self) -> bool
        ensures { result ≡ table_right (table_is self.now) }
    {
        let mut at = 0;
        for end in self.ends {
            let end = *end as usize;
            if end < at {
                return false;
            }
            at = end;
        }
        at == self.bytes.len()
    }

    // The names in turn.
    pub fn names_check(&self, presence: &VmdPresence, width: usize) -> Result<(), VmdRefusal>
        requires { table_right (table_is self.now) ≡ true }
        ensures { check_of result ≡ each (name_check width) (names_of (table_is self.now)) }
    {
        let mut at = 0;
        for end in self.ends {
            let end = *end as usize;
            let name = &self.bytes[at..end];
            vmd_names::name_check(presence, name, width)?;
            at = end;
        }
        Ok(())
    }
}

// What the tables of a control are found by.
use name_numbers::Numbering;
use p416_signature::{ByName, Objects};

/// What the tables of a control find their parts by.
#[derive(Clone, Copy, Drop)]
pub struct TableNames<'s, 'a> {
    /// The control-plane names of all tables of the program, in the order of their octets.
    pub tables: &'s Numbering<'a>,
    /// The objects of the control.
    pub own: &'s ByName<'a>,
    /// The objects of the program.
    pub objects: &'s Objects<'a>,
    /// The names of the actions of the control, in the order of the text.
    pub actions: &'s Numbering<'a>,
}

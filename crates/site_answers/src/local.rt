//! Refusals of local commands.

use op_name::Name;

/// Why a site didn't make an operation. Nothing is changed then. The causes are looked for in this order.
#[derive(Clone, Copy, Debug, PartialEq, Eq, Drop)]
pub enum Local {
    /// The place counts shown characters, of which there are `visible`: an insert may stand after the last
    /// one, a delete needs one.
    PlaceOut { place: u32, visible: u32 },
    /// The site has integrated no insert or delete of this name.
    Unknown { name: Name },
    /// The original is undone already; its generation is odd.
    NotInForce { generation: u16 },
    /// The original isn't undone; its generation is even.
    InForce { generation: u16 },
    /// The original was undone and redone as often as can be: its generation is `GENERATIONS`.
    GenerationFull,
    /// The site has made `NUMBERS` originals.
    NumberFull,
    /// The history has `entries` undone names, more than the `UNDO_ENTRIES` that the context of an operation carries.
    ContextFull { entries: u32 },
    /// Out of memory.
    Memory,
}

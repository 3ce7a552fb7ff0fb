// Memory locations and accesses to them, as hash table keys.
ghost use Rattle.std.specs.Prelude.{◌≡◌};

use ti_base::{Id, Place, Point};

/// The identity of an object or grid, as a key.
#[derive(Clone, Copy, PartialEq, Eq, Hash, Drop)]
pub struct IdKey {
    pub maker: u32,
    pub serial: u32,
    pub owner: u32,
    pub region: u32,
}

/// An object: by the number of the entry that created it (`Made`), or by its identity if no observed entry did (`Untold`).
#[derive(Clone, Copy, PartialEq, Eq, Hash, Drop)]
pub enum Thing {
    Made(u32),
    Untold(IdKey),
}

/// A point of a grid, as a key.
#[derive(Clone, Copy, PartialEq, Eq, Hash, Drop)]
pub struct PointKey {
    pub dim: u8,
    pub x1: i32,
    pub x2: i32,
    pub x3: i32,
}

/// A memory location.
#[derive(Clone, Copy, PartialEq, Eq, Hash, Drop)]
pub enum Spot {
    /// A field of an object, by its number.
    FieldOf(Thing, u32),
    /// A cell of a block: the number of the entry that created the block, and that of the cell.
    CellOf(u32, u64),
    /// A point of a grid that no observed entry created, or outside the grid's domain.
    PointOf(IdKey, PointKey),
}

/// A read or a write of a memory location by an entry.
#[derive(Clone, Copy)]
pub struct Use {
    /// The number of the entry in the history, from 0.
    pub number: u32,
    pub proc: u32,
    /// The number of collectives that its process has left before: two accesses of different processes can race only if it is equal.
    pub phase: u32,
    pub spot: Spot,
    pub writes: bool,
    /// The source location of the entry.
    pub place: Place,
}

/// An identity as a key.
pub fn id_key(id: Id) -> IdKey
    ensures { result ≡ record { maker = id.maker; serial = id.serial; owner = id.owner; region = id.region } }
{
    IdKey {
        maker: id.maker,
        serial: id.serial,
        owner: id.owner,
        region: id.region,
    }
}

/// A point as a key.
pub fn point_key(point: Point) -> PointKey
    ensures { result ≡ record { dim = point.dim; x1 = point.x1; x2 = point.x2; x3 = point.x3 } }
{
    PointKey {
        dim: point.dim,
        x1: point.x1,
        x2: point.x2,
        x3: point.x3,
    }
}

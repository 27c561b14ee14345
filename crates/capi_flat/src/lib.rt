// What passes the C boundary: structs by value of plain numbers, and how each answer of the library, an
// enum, becomes one.
#![tactic(auto)]

ghost use Rattle.std.specs.Prelude.{◌≡◌};
ghost use Rattle.capi_flat.specs.Flat.{flat_of};
ghost use Rattle.capi_flat.specs.Structs.{to_axes, to_cell, to_placement, verdict, sized, filled, counted, listing, planned, parted, summarized, no_grid, no_fill, no_list, no_planes, no_sides, no_summary};

use fill::FillCounts;
use grid::{Laid, Refusal};
use list::ListCounts;
use planes::{Planes, Sides};
use program_summary::Summary;

// ---- what is lent

#[repr(C)]
#[derive(Clone, Copy, Debug, PartialEq)]
pub struct Axes {
    pub r0: usize,
    pub r1: usize,
    pub r2: usize,
}

#[repr(C)]
#[derive(Clone, Copy, Debug, PartialEq)]
pub struct Cell {
    pub i: usize,
    pub j: usize,
    pub k: usize,
}

#[repr(C)]
#[derive(Clone, Copy, Debug, PartialEq)]
pub struct Placement {
    pub x: f32,
    pub y: f32,
    pub z: f32,
    pub scale: f32,
    pub reciprocal: f32,
}

impl From<Axes> for grid::Axes {
    ghost from_gives = { λ r s. s ≡ to_axes r };

    fn from(r: Axes) -> grid::Axes {
        grid::Axes {
            r0: r.r0,
            r1: r.r1,
            r2: r.r2,
        }
    }
}

impl From<Cell> for grid::Cell {
    ghost from_gives = { λ c d. d ≡ to_cell c };

    fn from(c: Cell) -> grid::Cell {
        grid::Cell {
            i: c.i,
            j: c.j,
            k: c.k,
        }
    }
}

impl From<Placement> for grid::Placement {
    ghost from_gives = { λ p q. q ≡ to_placement p };

    fn from(placement: Placement) -> grid::Placement {
        grid::Placement {
            x: placement.x,
            y: placement.y,
            z: placement.z,
            scale: placement.scale,
            reciprocal: placement.reciprocal,
        }
    }
}

// ---- what is answered: the number 0 and the values, or a refusal's number and place, and 0 for values

// An answer without values: of marking, of classes, of a check.
#[repr(C)]
#[derive(Clone, Copy, Debug, PartialEq)]
pub struct Verdict {
    pub number: u8,
    pub place: usize,
}

#[repr(C)]
#[derive(Clone, Copy, Debug, PartialEq)]
pub struct Sized {
    pub number: u8,
    pub place: usize,
    pub axes: Axes,
    pub placement: Placement,
}

#[repr(C)]
#[derive(Clone, Copy, Debug, PartialEq)]
pub struct Filled {
    pub number: u8,
    pub place: usize,
    pub scans: usize,
    pub left: usize,
}

// Of an edit, how many labels changed; of boxes, how many cells there are; of a run, how many bytes were
// written.
#[repr(C)]
#[derive(Clone, Copy, Debug, PartialEq)]
pub struct Counted {
    pub number: u8,
    pub place: usize,
    pub count: usize,
}

#[repr(C)]
#[derive(Clone, Copy, Debug, PartialEq)]
pub struct Listed {
    pub number: u8,
    pub place: usize,
    pub cells: usize,
    pub pairs: usize,
}

#[repr(C)]
#[derive(Clone, Copy, Debug, PartialEq)]
pub struct Planned {
    pub number: u8,
    pub place: usize,
    pub first: usize,
    pub count: usize,
}

#[repr(C)]
#[derive(Clone, Copy, Debug, PartialEq)]
pub struct Parted {
    pub number: u8,
    pub place: usize,
    pub first: usize,
    pub second: usize,
}

// The six lines' numbers.
#[repr(C)]
#[derive(Clone, Copy, Debug, PartialEq)]
pub struct Summarized {
    pub number: u8,
    pub place: usize,
    pub axes: Axes,
    pub outside: usize,
    pub inside: usize,
    pub surface: usize,
    pub left: usize,
    pub scans: usize,
}

// A slice of a lent list: where it begins there, and how long it is.
#[repr(C)]
#[derive(Clone, Copy, Debug, PartialEq)]
pub struct Slice {
    pub start: usize,
    pub length: usize,
}

// ---- each answer made flat, case by case

impl From<Result<(), Refusal>> for Verdict {
    ghost from_gives = { λ answer v. verdict v ≡ flat_of tt answer };

    fn from(answer: Result<(), Refusal>) -> Verdict {
        match answer {
            Ok(()) => Verdict {
                number: 0,
                place: 0,
            },
            Err(refusal) => Verdict {
                number: refusal.reason.number(),
                place: refusal.place,
            },
        }
    }
}

impl From<Result<Laid, Refusal>> for Sized {
    ghost from_gives = { λ answer s. sized s ≡ flat_of no_grid answer };

    fn from(answer: Result<Laid, Refusal>) -> Sized {
        match answer {
            Ok(l) => Sized {
                number: 0,
                place: 0,
                axes: Axes {
                    r0: l.axes.r0,
                    r1: l.axes.r1,
                    r2: l.axes.r2,
                },
                placement: Placement {
                    x: l.placement.x,
                    y: l.placement.y,
                    z: l.placement.z,
                    scale: l.placement.scale,
                    reciprocal: l.placement.reciprocal,
                },
            },
            Err(f) => Sized {
                number: f.reason.number(),
                place: f.place,
                axes: Axes {
                    r0: 0,
                    r1: 0,
                    r2: 0,
                },
                placement: Placement {
                    x: 0.0,
                    y: 0.0,
                    z: 0.0,
                    scale: 0.0,
                    reciprocal: 0.0,
                },
            },
        }
    }
}

impl From<Result<FillCounts, Refusal>> for Filled {
    ghost from_gives = { λ answer f. filled f ≡ flat_of no_fill answer };

    fn from(answer: Result<FillCounts, Refusal>) -> Filled {
        match answer {
            Ok(n) => Filled {
                number: 0,
                place: 0,
                scans: n.scans,
                left: n.left,
            },
            Err(f) => Filled {
                number: f.reason.number(),
                place: f.place,
                scans: 0,
                left: 0,
            },
        }
    }
}

impl From<Result<usize, Refusal>> for Counted {
    ghost from_gives = { λ answer n. counted n ≡ flat_of 0 answer };

    fn from(answer: Result<usize, Refusal>) -> Counted {
        match answer {
            Ok(count) => Counted {
                number: 0,
                place: 0,
                count,
            },
            Err(f) => Counted {
                number: f.reason.number(),
                place: f.place,
                count: 0,
            },
        }
    }
}

impl From<Result<ListCounts, Refusal>> for Listed {
    ghost from_gives = { λ answer n. listing n ≡ flat_of no_list answer };

    fn from(answer: Result<ListCounts, Refusal>) -> Listed {
        match answer {
            Ok(n) => Listed {
                number: 0,
                place: 0,
                cells: n.cells,
                pairs: n.pairs,
            },
            Err(f) => Listed {
                number: f.reason.number(),
                place: f.place,
                cells: 0,
                pairs: 0,
            },
        }
    }
}

impl From<Result<Planes, Refusal>> for Planned {
    ghost from_gives = { λ answer p. planned p ≡ flat_of no_planes answer };

    fn from(answer: Result<Planes, Refusal>) -> Planned {
        match answer {
            Ok(p) => Planned {
                number: 0,
                place: 0,
                first: p.first,
                count: p.count,
            },
            Err(f) => Planned {
                number: f.reason.number(),
                place: f.place,
                first: 0,
                count: 0,
            },
        }
    }
}

impl From<Result<Sides, Refusal>> for Parted {
    ghost from_gives = { λ answer p. parted p ≡ flat_of no_sides answer };

    fn from(answer: Result<Sides, Refusal>) -> Parted {
        match answer {
            Ok(s) => Parted {
                number: 0,
                place: 0,
                first: s.first,
                second: s.second,
            },
            Err(f) => Parted {
                number: f.reason.number(),
                place: f.place,
                first: 0,
                second: 0,
            },
        }
    }
}

impl From<Result<Summary, Refusal>> for Summarized {
    ghost from_gives = { λ answer n. summarized n ≡ flat_of no_summary answer };

    fn from(answer: Result<Summary, Refusal>) -> Summarized {
        match answer {
            Ok(s) => Summarized {
                number: 0,
                place: 0,
                axes: Axes {
                    r0: s.axes.r0,
                    r1: s.axes.r1,
                    r2: s.axes.r2,
                },
                outside: s.outside,
                inside: s.inside,
                surface: s.surface,
                left: s.left,
                scans: s.scans,
            },
            Err(f) => Summarized {
                number: f.reason.number(),
                place: f.place,
                axes: Axes {
                    r0: 0,
                    r1: 0,
                    r2: 0,
                },
                outside: 0,
                inside: 0,
                surface: 0,
                left: 0,
                scans: 0,
            },
        }
    }
}

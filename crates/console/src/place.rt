// The place of a refusal, or of a difference between two tables, by its name.
use rules::Refusal;
use std::fmt;

// The k-th of what is counted from 1.
#[derive(Clone, Copy)]
pub enum Place {
    Figure(u8),
    Relation(u8),
    Core(u8),
    Task(u8),
    BusFigure(u8),
}

const FIGURES: [&str; 15] = [
    "tCK", "tRP", "tRCD", "CL", "WL", "BL", "tWTR", "tWR", "tRRD", "tFAW", "tRAS", "tRTP", "tRTRS",
    "Ncols", "Ncap",
];

const RELATIONS: [&str; 5] = [
    "tWR >= tWTR",
    "WL + BL/2 + tWTR >= CL",
    "tRTP < CL + BL/2 + 2",
    "tRCD + hit > tRAS",
    "Ncols a multiple of BL",
];

// The k-th of some names, counted from 1; nothing where there are fewer.
fn name(names: &[&'static str], k: u8) -> &'static str {
    let i = (k as usize).saturating_sub(1);
    if i < names.len() { names[i] } else { "" }
}

// `timing figure 4 (CL)`, `relation 2 (WL + BL/2 + tWTR >= CL)`, `core 3`, `task 3`, or of a bus table `timing figure 1 (s)`: its others have no name.
impl fmt::Display for Place {
    fn fmt<W: fmt::Write>(&self, f: &mut fmt::Formatter<W>) -> fmt::Result {
        match *self {
            Place::Figure(k) => {
                let name = name(&FIGURES, k);
                write!(f, "timing figure {k} ({name})")
            }
            Place::Relation(k) => {
                let name = name(&RELATIONS, k);
                write!(f, "relation {k} ({name})")
            }
            Place::Core(k) => write!(f, "core {k}"),
            Place::Task(k) => write!(f, "task {k}"),
            Place::BusFigure(1) => write!(f, "timing figure 1 (s)"),
            Place::BusFigure(k) => write!(f, "timing figure {k}"),
        }
    }
}

// Where a refusal is about; nothing where it has no place.
pub fn place_of(refusal: Refusal) -> Option<Place> {
    let k = refusal.place;
    match refusal.number {
        _ if k == 0 => None,
        6 => Some(Place::Figure(k)),
        7 => Some(Place::Relation(k)),
        8 => Some(Place::Core(k)),
        16 => Some(Place::BusFigure(k)),
        _ => Some(Place::Task(k)),
    }
}

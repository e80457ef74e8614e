// A difference between two tables in words.
use changes::{Change, Figure};
use console::Place;
use std::fmt;

// One of two bus tables, or of two of a DRAM.
#[derive(Clone, Copy)]
pub struct Difference {
    pub change: Change<Figure>,
    pub bus: bool,
}

// What a figure may do where the newer table is the older one worsened.
fn rule(what: Figure) -> &'static str {
    match what {
        Figure::Exec | Figure::Requests => "it may only rise",
        Figure::Period => "it may only get shorter",
        _ => "it must stay",
    }
}

// `task 5's execution time`; a timing figure is named with its place.
#[derive(Clone, Copy)]
struct Named(Difference);

impl fmt::Display for Named {
    fn fmt<W: fmt::Write>(&self, f: &mut fmt::Formatter<W>) -> fmt::Result {
        let k = self.0.change.place;
        let core = Place::Core(k);
        let task = Place::Task(k);
        match self.0.change.what {
            Figure::Cores => f.write_str("the number of cores"),
            Figure::Partitions => f.write_str("the number of partitions"),
            Figure::Tasks => f.write_str("the number of tasks"),
            Figure::Fourth => f.write_str("the fourth byte"),
            Figure::Timing if self.0.bus => Place::BusFigure(k).fmt(f),
            Figure::Timing => Place::Figure(k).fmt(f),
            Figure::Set => write!(f, "{core}'s set"),
            Figure::Core => write!(f, "{task}'s core"),
            Figure::Deadline => write!(f, "{task}'s deadline"),
            Figure::Exec => write!(f, "{task}'s execution time"),
            Figure::Requests => write!(f, "{task}'s request count"),
            Figure::Period => write!(f, "{task}'s period"),
        }
    }
}

// `task 5's execution time was 330000000, is 300000000: it may only rise`
impl fmt::Display for Difference {
    fn fmt<W: fmt::Write>(&self, f: &mut fmt::Formatter<W>) -> fmt::Result {
        let what = Named(*self);
        let was = self.change.was;
        let is = self.change.is;
        let rule = rule(self.change.what);
        write!(f, "{what} was {was}, is {is}: {rule}")
    }
}

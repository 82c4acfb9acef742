// How much of an input has arrived, told from what each read of it answers.
#![tactic(auto)]

ghost use Rattle.std.specs.Prelude.{◌≡◌};
ghost use Rattle.input_arrival.specs.Arrivals.{takes};
ghost use Rattle.input_arrival.specs.declared.Arrival.TheVariants.{Going};

// More may come after so many bytes; all of the input stands there, so many bytes; or it can't be had whole.
#[derive(Clone, Copy, PartialEq, Eq, Debug)]
pub enum Arrival {
    Going(usize),
    Whole(usize),
    Cut,
}

// What has arrived after a read into what `at` bytes leave of an area of `room`, by the number of bytes that the read put, if it did not
// fail.
#[tactic(auto, unfolding(crate::specs::Arrivals::takes))]
pub fn taken(at: usize, room: usize, got: Option<usize>) -> Arrival
    ensures { result ≡ takes room (Going at) got }
{
    match got {
        Some(0) if at < room => Arrival::Whole(at),
        Some(n) if at < room && n < room - at => Arrival::Going(at + n),
        _ => Arrival::Cut,
    }
}

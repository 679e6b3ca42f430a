// What is printed of a day: a line for each call, and a line for each valve.
use heap::tally::Tally;
use kinds::dose::Dose;
use kinds::fault::StoreFault;
use std::{fmt, io};
use store::call::{Answer, Call};

// What was asked.
#[derive(Clone, Copy)]
struct Asked<'a>(&'a Call<Dose>);

impl fmt::Display for Asked<'_> {
    ghost use Rattle.std.specs.Prelude.{Some};
    ghost use Rattle.dosing_day.specs.Printed.{asked_text};

    ghost output = { λ asked. Some (asked_text asked.0.now) };

    fn fmt<W: fmt::Write>(&self, f: &mut fmt::Formatter<W>) -> fmt::Result {
        match self.0 {
            Call::Make { d, template, .. } => {
                let weight = template.weight();
                let mark = template.mark();
                write!(f, "valve {d}, {mark} of {weight} mg")
            }
            Call::Empty { r } => write!(f, "valve {r}, batch dropped"),
            Call::Copy { d, s } => write!(f, "valve {d}, as valve {s}"),
            Call::Write { s, k, t } => write!(f, "valve {s}, link {k} to valve {t}"),
            Call::Tell => f.write_str("slots"),
            Call::Step => f.write_str("step"),
            Call::Full => f.write_str("full"),
            _ => f.write_str("another call"),
        }
    }
}

// Why a call was refused, by its number.
#[derive(Clone, Copy)]
struct Refused(StoreFault);

impl fmt::Display for Refused {
    ghost use Rattle.std.specs.Prelude.{Some};
    ghost use Rattle.dosing_day.specs.Printed.{refused_text};

    ghost output = { λ refused. Some (refused_text refused.0) };

    fn fmt<W: fmt::Write>(&self, f: &mut fmt::Formatter<W>) -> fmt::Result {
        let number = self.0.number();
        write!(f, "refused with {number}")
    }
}

// What was answered.
#[derive(Clone, Copy)]
struct Told<'a>(&'a Result<Answer<Dose>, StoreFault>);

impl fmt::Display for Told<'_> {
    ghost use Rattle.std.specs.Prelude.{Some};
    ghost use Rattle.dosing_day.specs.Printed.{told_text};

    ghost output = { λ told. Some (told_text told.0.now) };

    fn fmt<W: fmt::Write>(&self, f: &mut fmt::Formatter<W>) -> fmt::Result {
        match self.0 {
            Ok(Answer::Count(n)) => write!(f, "{n} in the nursery"),
            Ok(Answer::Collected(stepped)) => stepped.fmt(f),
            Ok(Answer::Arcs(lengths)) => lengths.fmt(f),
            Ok(_) => f.write_str("done"),
            Err(e) => Refused(*e).fmt(f),
        }
    }
}

// A line for each call that was made. (A function, as `print_tally` is: it writes lines and may fail, where `Display` gives a text.)
pub fn print_day(
    rt: &HostRuntime,
    calls: &[Call<Dose>],
    answers: &[Result<Answer<Dose>, StoreFault>],
) -> io::Result<()> {
    for (call, answer) in calls.iter().zip(answers.iter()) {
        println!(rt; "{}: {}", Asked(call), Told(answer))?;
    }
    Ok(())
}

// The line of a valve's tally.
pub fn print_tally(
    rt: &HostRuntime,
    valve: i64,
    tally: Result<Tally, StoreFault>,
) -> io::Result<()> {
    match tally {
        Ok(t) => println!(rt; "valve {valve}: {t}"),
        Err(e) => println!(rt; "valve {valve}: {}", Refused(e)),
    }
}

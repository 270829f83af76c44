// The program `slots`: reads a slot count and then commands from standard input, and answers each on a line.
#![tactic(auto)]

ghost use Rattle.std.specs.Prelude.{◌≤◌};

use answers::{Inserted, Lookup, Refusal};
use int_map_walk::{Walk, Yielded, step};
use lines::{Decimal, Order, Reading};
use std::fmt::InlineText;
use std::io::{self, ErrorKind, Read, Write};

// The most slots that the program lends to its map.
const MOST: usize = 1024;

// A number of slots that the program can lend.
#[derive(Clone, Copy)]
struct Size {
    slots: usize,
    ghost within: { slots ≤ 1024 },
}

// How far the program is: before the count line, with a map of this size, or past a refused count.
#[derive(Clone, Copy)]
enum Stage {
    Counting,
    Lending(Size),
    Over,
}

// What is kept between two bytes: the line so far, whether it has bytes, and the stage.
#[derive(Drop)]
struct Session {
    reading: Reading,
    begun: bool,
    stage: Stage,
}

// Writes bytes to standard output.
fn say(rt: &HostRuntime, text: &[u8]) -> io::Result<()> {
    rt.stdout().write_all(text)
}

// Writes a number in decimal.
fn say_number(rt: &HostRuntime, n: u64) -> io::Result<()> {
    let Decimal { digits, from } = Decimal::of(n);
    say(rt, &digits[from..])
}

// Writes a word, a number and the end of the line.
fn say_with(rt: &HostRuntime, word: &[u8], n: u64) -> io::Result<()> {
    say(rt, word)?;
    say_number(rt, n)?;
    say(rt, b"\n")
}

// Writes a refusal by its number.
fn say_refusal(rt: &HostRuntime, why: Refusal) -> io::Result<()> {
    say_with(rt, b"refused ", u64::from(why))
}

// `i K V`: fresh, or replaced with the old value.
fn say_inserted(rt: &HostRuntime, said: Result<Inserted<u64>, Refusal>) -> io::Result<()> {
    match said {
        Ok(Inserted::Fresh(_, _)) => say(rt, b"fresh\n"),
        Ok(Inserted::Replaced(old, _, _)) => say_with(rt, b"replaced ", old),
        Err(why) => say_refusal(rt, why),
    }
}

// `r K`: removed with the value, or absent.
fn say_removed(rt: &HostRuntime, said: Result<Lookup<u64>, Refusal>) -> io::Result<()> {
    match said {
        Ok(Lookup::Found(old, _, _)) => say_with(rt, b"removed ", old),
        Ok(Lookup::Absent(_)) => say(rt, b"absent\n"),
        Err(why) => say_refusal(rt, why),
    }
}

// `g K`: found with value and examined number, or absent with examined number.
fn say_got(rt: &HostRuntime, said: Result<Lookup<u64>, Refusal>) -> io::Result<()> {
    match said {
        Ok(Lookup::Found(value, _, examined)) => {
            say(rt, b"found ")?;
            say_number(rt, value)?;
            say_with(rt, b" ", examined as u64)
        }
        Ok(Lookup::Absent(examined)) => say_with(rt, b"absent ", examined as u64),
        Err(why) => say_refusal(rt, why),
    }
}

// `w`: each pair on a line, in slot order, then `end`.
fn say_walk(rt: &HostRuntime, marks: &[u8], keys: &[u64], values: &[u64]) -> io::Result<()> {
    let mut here = Walk::start();
    for _ in 0..MOST + 2 {
        let stepped = step(here, marks, keys, values, MOST as u64);
        match stepped.out {
            Ok(Yielded::Item((key, value))) => {
                say_number(rt, key)?;
                say_with(rt, b" ", value)?;
            }
            Ok(Yielded::Nothing) => {}
            Ok(Yielded::Done) => return say(rt, b"end\n"),
            Err(why) => return say_refusal(rt, why),
        }
        here = stepped.walk;
    }
    Ok(())
}

// The end of the first line: the slot count, or refusal 1.
fn begin(rt: &HostRuntime, order: Order) -> io::Result<Stage> {
    match order {
        Order::Count(n) if 0 < n && n <= MOST as u64 => {
            say_with(rt, b"slots ", n)?;
            let size = Size { slots: n as usize };
            Ok(Stage::Lending(size))
        }
        _ => {
            say_refusal(rt, Refusal::Sizes)?;
            Ok(Stage::Over)
        }
    }
}

// Carries out one command on the first slots of the arrays.
fn obey(
    rt: &HostRuntime,
    marks: &mut [u8],
    keys: &mut [u64],
    values: &mut [u64],
    order: Order,
) -> io::Result<()> {
    match order {
        Order::Insert(key, value) => {
            say_inserted(rt, int_map::insert(marks, keys, values, key, value))
        }
        Order::Remove(key) => say_removed(rt, int_map::remove(marks, keys, values, key)),
        Order::Get(key) => say_got(rt, int_map_reads::get(marks, keys, values, key)),
        Order::Walk => say_walk(rt, marks, keys, values),
        Order::Count(_) | Order::Bad => say(rt, b"bad line\n"),
    }
}

impl Session {
    // The end of a line: the slot count first, then commands.
    fn end_line(
        &mut self,
        rt: &HostRuntime,
        marks: &mut [u8; 1024],
        keys: &mut [u64; 1024],
        values: &mut [u64; 1024],
    ) -> io::Result<()> {
        let order = self.reading.ordered();
        match self.stage {
            Stage::Counting => self.stage = begin(rt, order)?,
            Stage::Lending(size) => {
                let n = size.slots;
                obey(rt, &mut marks[..n], &mut keys[..n], &mut values[..n], order)?;
            }
            Stage::Over => {}
        }
        self.reading = Reading::new();
        self.begun = false;
        Ok(())
    }

    // A piece of the input, byte by byte.
    fn take(
        &mut self,
        rt: &HostRuntime,
        marks: &mut [u8; 1024],
        keys: &mut [u64; 1024],
        values: &mut [u64; 1024],
        bytes: &[u8],
    ) -> io::Result<()> {
        for byte in bytes {
            if *byte == b'\n' {
                self.end_line(rt, marks, keys, values)?;
            } else {
                self.reading = self.reading.step(*byte);
                self.begun = true;
            }
        }
        Ok(())
    }

    // The end of the input: a line without its newline is a line, and so is a missing first one.
    fn finish(
        &mut self,
        rt: &HostRuntime,
        marks: &mut [u8; 1024],
        keys: &mut [u64; 1024],
        values: &mut [u64; 1024],
    ) -> io::Result<()> {
        match self.stage {
            Stage::Counting => self.end_line(rt, marks, keys, values),
            Stage::Lending(_) if self.begun => self.end_line(rt, marks, keys, values),
            _ => Ok(()),
        }
    }
}

// A read that failed is told to standard error, without the system's number behind its words.
fn say_failed(rt: &HostRuntime, error: &io::Error) -> io::Result<()> {
    let told = InlineText::<320>::of(error);
    let words = told.as_str();
    match words.split_once(" (os error ") {
        Some((said, _)) => eprintln!(rt; "slots: standard input: {said}"),
        None => eprintln!(rt; "slots: standard input: {words}"),
    }
}

fn main(rt: HostRuntime) -> io::Result<()> {
    let mut marks = [0u8; 1024];
    let mut keys = [0u64; 1024];
    let mut values = [0u64; 1024];
    let mut session = Session {
        reading: Reading::count(),
        begun: false,
        stage: Stage::Counting,
    };
    // More reads than any input takes.
    for _ in 0..u64::MAX {
        let mut piece = [0u8; 4096];
        match rt.stdin().read(&mut piece) {
            Ok(0) => return session.finish(&rt, &mut marks, &mut keys, &mut values),
            Ok(n) => session.take(&rt, &mut marks, &mut keys, &mut values, &piece[..n])?,
            // An interrupted read does not count: it is made again.
            Err(error) if error.kind() == ErrorKind::Interrupted => {}
            Err(error) => return say_failed(&rt, &error),
        }
        if let Stage::Over = session.stage {
            return Ok(());
        }
    }
    Ok(())
}

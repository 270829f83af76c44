// The lines of the program `slots`: a reader that takes one byte a step, and the decimal digits of a number.
#![tactic(auto)]

ghost use Rattle.std.specs.Prelude.{◌≡◌};
ghost use Rattle.lines.specs.Grammar.{key_order, pair_order, count_order};
ghost use Rattle.lines.specs.Reader.{grown_of, more_of, number_of, spaced_of, joined_of, step_of, order_of};
ghost use Rattle.lines.specs.Decimal.{decimal_of};

// What a line asks for.
#[derive(Clone, Copy, Debug, PartialEq, Eq)]
pub enum Order {
    // `i K V`
    Insert(u64, u64),
    // `r K`
    Remove(u64),
    // `g K`
    Get(u64),
    // `w`
    Walk,
    // a number alone: the count line
    Count(u64),
    // a line of another form
    Bad,
}

// What the bytes of a word are so far, read as a decimal number.
#[derive(Clone, Copy, Debug, PartialEq, Eq)]
pub enum Digits {
    Empty,
    Number(u64),
    // a byte that is no digit, or a value of 2^64 or more
    Broken,
}

// How far a line has been read.
#[derive(Clone, Copy, Debug, PartialEq, Eq)]
pub enum Reading {
    // no byte yet
    Start,
    // one byte
    Letter(u8),
    // a letter, a space, and the key so far
    Key(u8, Digits),
    // a letter, a space, the key, a space, and the value so far
    Pair(u8, Digits, Digits),
    // the count line so far
    Alone(Digits),
    // a bad line, whatever follows
    Lost,
}

// The number with one byte more at its end, where that is a digit and the number still fits.
#[tactic(auto, unfolding(crate::specs::Grammar::limit))]
fn grown(n: u64, byte: u8) -> Digits
    ensures { result ≡ grown_of n byte }
{
    if !byte.is_ascii_digit() {
        return Digits::Broken;
    }
    let digit = u64::from(byte - b'0');
    match n.checked_mul(10).and_then(|tens| tens.checked_add(digit)) {
        Some(more) => Digits::Number(more),
        None => Digits::Broken,
    }
}

impl Digits {
    // The word with one byte more.
    fn more(self, byte: u8) -> Digits
        ensures { result ≡ more_of self byte }
    {
        match self {
            Digits::Empty => grown(0, byte),
            Digits::Number(n) => grown(n, byte),
            Digits::Broken => Digits::Broken,
        }
    }
}

// The order of a letter and a key.
fn keyed(letter: u8, key: Digits) -> Order
    ensures { result ≡ key_order letter (number_of key) }
{
    match (letter, key) {
        (b'r', Digits::Number(k)) => Order::Remove(k),
        (b'g', Digits::Number(k)) => Order::Get(k),
        _ => Order::Bad,
    }
}

// The order of a letter, a key and a value.
fn paired(letter: u8, key: Digits, value: Digits) -> Order
    ensures { result ≡ pair_order letter (number_of key) (number_of value) }
{
    match (letter, key, value) {
        (b'i', Digits::Number(k), Digits::Number(v)) => Order::Insert(k, v),
        _ => Order::Bad,
    }
}

// The order of a number alone.
fn counted(count: Digits) -> Order
    ensures { result ≡ count_order (number_of count) }
{
    match count {
        Digits::Number(n) => Order::Count(n),
        Digits::Empty | Digits::Broken => Order::Bad,
    }
}

impl Reading {
    // The start of a line.
    pub fn new() -> Self
        ensures { result ≡ Reading.Start }
    {
        Self::Start
    }

    // The start of the count line.
    pub fn count() -> Self
        ensures { result ≡ Reading.Alone Digits.Empty }
    {
        Self::Alone(Digits::Empty)
    }

    // The line with a space more.
    fn spaced(self) -> Reading
        ensures { result ≡ spaced_of self }
    {
        match self {
            Reading::Letter(c) => Reading::Key(c, Digits::Empty),
            Reading::Key(c, k) => Reading::Pair(c, k, Digits::Empty),
            Reading::Start | Reading::Pair(..) | Reading::Alone(_) | Reading::Lost => Reading::Lost,
        }
    }

    // The line with a byte more that is no space.
    fn joined(self, byte: u8) -> Reading
        ensures { result ≡ joined_of self byte }
    {
        match self {
            Reading::Start => Reading::Letter(byte),
            Reading::Key(c, k) => Reading::Key(c, k.more(byte)),
            Reading::Pair(c, k, v) => Reading::Pair(c, k, v.more(byte)),
            Reading::Alone(n) => Reading::Alone(n.more(byte)),
            Reading::Letter(_) | Reading::Lost => Reading::Lost,
        }
    }

    // The line with one byte more.
    pub fn step(self, byte: u8) -> Reading
        ensures { result ≡ step_of self byte }
    {
        if byte == b' ' {
            self.spaced()
        } else {
            self.joined(byte)
        }
    }

    // What the line asks for, if it ends here.
    pub fn ordered(self) -> Order
        ensures { result ≡ order_of self }
    {
        match self {
            Reading::Letter(b'w') => Order::Walk,
            Reading::Key(c, k) => keyed(c, k),
            Reading::Pair(c, k, v) => paired(c, k, v),
            Reading::Alone(n) => counted(n),
            Reading::Start | Reading::Letter(_) | Reading::Lost => Order::Bad,
        }
    }
}

// A number in decimal: its digits stand at the end of the array, from `from` on, behind zero bytes.
#[derive(Clone, Copy, Debug, PartialEq, Eq)]
pub struct Decimal {
    pub digits: [u8; 20],
    pub from: usize,
}

impl Decimal {
    // The decimal digits of `n`, the last one first.
    pub fn of(n: u64) -> Decimal
        ensures { result ≡ decimal_of n }
    {
        let mut digits = [0u8; 20];
        let mut from: usize = 19;
        let mut rest = n;
        // Kept as a loop: how many digits there are shows only when one is left.
        while 9 < rest {
            digits[from] = (48 + rest % 10) as u8;
            rest /= 10;
            from -= 1;
        }
        digits[from] = (48 + rest) as u8;
        Decimal { digits, from }
    }
}

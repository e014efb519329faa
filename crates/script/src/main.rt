// The script program: lays a zeroed image in BENCH, of version 2, then does what the records of 16 bytes on standard input say, a line for each.
#![tactic(auto)]

ghost use Rattle.std.specs.Prelude.{◌≡◌, ◌≤◌, length, replicate, IfOk};
ghost use Rattle.paper.specs.Outcomes.{lent};
ghost use Rattle.paper.specs.Script.{script_start, line_of, tells, sum_of, most_length, told};
ghost use Rattle.script.specs.Said.{fault_no, said, printed};
ghost use Rattle.script.specs.Operations.{Operates};
ghost use Rattle.script.specs.declared.Fault.TheVariants.{Refused};

use numbers::Number;
use paper::{Book, Edition, Geometry, Offset, Pages, Refusal, Region, Version};
use std::io::{Read, Stdin};
use std::{fmt, io};

const G: Geometry = Geometry::BENCH;

// The only edition that version 2 has.
const EDITION: Edition = Edition(0);

// The bytes that are lent.
const IMAGE: usize = 8704;

const INDEX: usize = 82;

// A record's bytes, and where its fields stand.
const RECORD: usize = 16;

const OPERATION_AT: usize = 0;

const FILL_AT: usize = 1;

const REGION_AT: usize = 2;

const LENGTH_AT: usize = 4;

const NUMBER_AT: usize = 8;

const MOST_LENGTH: usize = 4096;

// ---- what goes wrong

#[derive(Clone, Copy)]
enum Fault {
    // The call was refused.
    Refused(Refusal),
    // The record names no operation, or too great a length.
    Odd,
    // It is a last short record.
    Short,
}

impl From<Refusal> for Fault {
    ghost from_gives = { λ k f. f ≡ Refused k };

    fn from(refusal: Refusal) -> Fault {
        Fault::Refused(refusal)
    }
}

impl From<Fault> for u8 {
    ghost from_gives = { λ f n. n ≡ fault_no f };

    fn from(fault: Fault) -> u8 {
        match fault {
            Fault::Refused(refusal) => u8::from(refusal),
            Fault::Odd => 99,
            Fault::Short => 98,
        }
    }
}

// ---- a record

// What it asks for, in the order of the numbers 1 to 7.
#[derive(Clone, Copy)]
enum Operation {
    Open,
    Grow,
    Store,
    Load,
    Release,
    Size,
    Recover,
}

impl TryFrom<u8> for Operation {
    type Error = Fault;

    ghost try_from_gives = { Operates };

    fn try_from(number: u8) -> Result<Operation, Fault> {
        match number {
            1 => Ok(Operation::Open),
            2 => Ok(Operation::Grow),
            3 => Ok(Operation::Store),
            4 => Ok(Operation::Load),
            5 => Ok(Operation::Release),
            6 => Ok(Operation::Size),
            7 => Ok(Operation::Recover),
            _ => Err(Fault::Odd),
        }
    }
}

fn sum(bytes: &[u8]) -> u64
    requires { length bytes.now ≤ most_length }
    ensures { result ≡ sum_of bytes.now }
{
    bytes.iter().map(|b| u64::from(*b)).sum()
}

// The fields of a record. The number is pages or an offset.
#[derive(Clone, Copy)]
struct Record {
    operation: Operation,
    fill: u8,
    book: Book,
    length: usize,
    number: u64,
    ghost length_fits: { length ≤ most_length },
}

impl Record {
    ghost use Rattle.paper.specs.Answers.{answered, plain, Done};
    ghost use Rattle.paper.specs.Script.{called};
    ghost use Rattle.script.specs.Asked.{makes, call_of, Asks};
    ghost use Rattle.script.specs.declared.Operation.TheVariants.{Store, Load};

    fn parse(bytes: &[u8]) -> Result<Record, Fault>
        ensures { Asks bytes.now result }
    {
        if bytes.len() < RECORD {
            return Err(Fault::Short);
        }
        let length = u32::read(bytes, LENGTH_AT) as usize;
        if length > MOST_LENGTH {
            return Err(Fault::Odd);
        }
        Ok(Record {
            operation: Operation::try_from(bytes[OPERATION_AT])?,
            fill: bytes[FILL_AT],
            book: Book {
                region: Region(u32::from(u16::read(bytes, REGION_AT))),
                edition: EDITION,
            },
            length,
            number: u64::read(bytes, NUMBER_AT),
        })
    }

    // A store of the fill byte.
    fn store(&self, image: &mut [u8], index: &[u8]) -> Result<(), Refusal>
        ensures { tells (answered plain result) (lent image.new index.now) ≡ called (makes Store self.now) (lent image.old index.now) }
    {
        let bytes = [self.fill; MOST_LENGTH];
        contents::store(
            G,
            image,
            index,
            self.book,
            Offset(self.number),
            &bytes[..self.length],
        )
    }

    // A load answers the sum of its bytes.
    fn load(&self, image: &[u8], index: &[u8]) -> Result<u64, Refusal>
        ensures { tells (answered Done result) (lent image.now index.now) ≡ called (makes Load self.now) (lent image.now index.now) }
    {
        let mut buffer = [0u8; MOST_LENGTH];
        let bytes = &mut buffer[..self.length];
        contents::load(G, image, index, self.book, Offset(self.number), bytes)?;
        Ok(sum(bytes))
    }

    // Makes the call, which answers its value.
    fn call(&self, image: &mut [u8], index: &mut [u8]) -> Result<u64, Refusal>
        ensures { tells (answered Done result) (lent image.new index.new) ≡ called (call_of self.now) (lent image.old index.old) }
    {
        match self.operation {
            Operation::Open => books::open(G, image, index).map(|book| u64::from(book.region.0)),
            Operation::Grow => {
                books::grow(G, image, index, self.book, Pages(self.number)).map(|old| old.0)
            }
            Operation::Store => self.store(image, index).map(|()| 0),
            Operation::Load => self.load(image, index),
            Operation::Release => books::release(G, image, index, self.book).map(|()| 0),
            Operation::Size => desk::size(G, image, self.book).map(|pages| pages.0),
            Operation::Recover => recovery::recover(G, image, index).map(|()| 0),
        }
    }
}

// What a record tells, as far as it was read.
fn perform(image: &mut [u8], index: &mut [u8], bytes: &[u8]) -> Result<u64, Fault>
    ensures { tells (said result) (lent image.new index.new) ≡ told bytes.now (lent image.old index.old) }
{
    let record = Record::parse(bytes)?;
    Ok(record.call(image, index)?)
}

// ---- a line

// As it is printed: 0, or the refusal's number; and the value.
#[derive(Clone, Copy)]
struct Line {
    refusal: u8,
    value: u64,
}

impl From<Result<u64, Fault>> for Line {
    ghost from_gives = { λ r l. printed l ≡ line_of (said r) };

    fn from(told: Result<u64, Fault>) -> Line {
        match told {
            Ok(value) => Line { refusal: 0, value },
            Err(fault) => Line {
                refusal: u8::from(fault),
                value: 0,
            },
        }
    }
}

impl fmt::Display for Line {
    fn fmt<W: fmt::Write>(&self, f: &mut fmt::Formatter<W>) -> fmt::Result {
        write!(f, "{} {}", self.refusal, self.value)
    }
}

// ---- the walk

// Reads until the record is full or the input ends, and tells how many bytes it got. (The library's methods that read on fill a Vec, or do not
// say how many bytes they got before the end.)
fn read_record(input: &mut Stdin, bytes: &mut [u8]) -> io::Result<usize>
    ensures { IfOk result (λ n. n ≤ length bytes.new) }
{
    let mut got = 0;
    while got < bytes.len() {
        match input.read(&mut bytes[got..])? {
            0 => break,
            n => got += n,
        }
    }
    Ok(got)
}

// Nothing says that the input ends, so the turns have an end, which no run comes to.
fn run(rt: &HostRuntime, image: &mut [u8], index: &mut [u8]) -> io::Result<()>
    requires { lent image.old index.old ≡ script_start }
{
    let mut input = rt.stdin();
    for _ in 0..u64::MAX {
        let mut bytes = [0u8; RECORD];
        let got = read_record(&mut input, &mut bytes)?;
        if got == 0 {
            break;
        }
        let told = perform(image, index, &bytes[..got]);
        let Ok(value) = told else {
            let line = Line::from(told);
            println!(rt; "{line}")?;
            continue;
        };
        let line = Line { refusal: 0, value };
        println!(rt; "{line}")?;
    }
    Ok(())
}

fn main(rt: HostRuntime) -> io::Result<()> {
    let mut image = [0u8; IMAGE];
    let mut index = [0u8; INDEX];
    // A lay over zeros is not refused: that is proved, and nothing tests it here.
    laying::lay(G, Version::Two, &mut image, &mut index).unwrap();
    run(&rt, &mut image, &mut index)
}

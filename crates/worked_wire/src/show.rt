// One call of a reader or of a writer, and one line with its answer.
use information::{Information, Sender, read_information};
use integers::{Integer, read_integer};
use invariants::Header;
use invariants::reader::read_header;
use lists::Span;
use parameters_reader::read_parameters;
use refusals::{Call, Refusal, close_code};
use std::{fmt, io};

// Bytes in hexadecimal, each behind a space.
#[derive(Drop)]
pub(crate) struct Hex<'a>(pub &'a [u8]);

impl<'a> fmt::Display for Hex<'a> {
    fn fmt<W: fmt::Write>(&self, f: &mut fmt::Formatter<W>) -> fmt::Result {
        for byte in self.0 {
            write!(f, " {byte:02x}")?;
        }
        Ok(())
    }
}

// Where a part lies: from a place up to, and not with, another.
#[derive(Drop)]
struct At(Span);

impl fmt::Display for At {
    fn fmt<W: fmt::Write>(&self, f: &mut fmt::Formatter<W>) -> fmt::Result {
        let part = self.0;
        write!(f, "{}..{}", part.start, part.end)
    }
}

// The number of a refusal, and its close code if it has one. Each program has its own: a crate for these lines is no plainer.
#[derive(Drop)]
struct Refused(Refusal, Call);

impl fmt::Display for Refused {
    fn fmt<W: fmt::Write>(&self, f: &mut fmt::Formatter<W>) -> fmt::Result {
        write!(f, "refused {}", u32::from(self.0))?;
        match close_code(self.0, self.1) {
            Some(code) => write!(f, ", close code {code}"),
            None => Ok(()),
        }
    }
}

// What a header says.
#[derive(Drop)]
struct Form(Header);

impl fmt::Display for Form {
    fn fmt<W: fmt::Write>(&self, f: &mut fmt::Formatter<W>) -> fmt::Result {
        match self.0 {
            Header::Long {
                version,
                destination,
                source,
                rest,
            } => write!(
                f,
                "long form, version {version}, destination ID at {}, source ID at {}, rest at {}",
                At(destination),
                At(source),
                At(rest)
            ),
            Header::Short { destination, rest } => write!(
                f,
                "short form, destination ID at {}, rest at {}",
                At(destination),
                At(rest)
            ),
            Header::VersionNegotiation {
                destination,
                source,
                list,
            } => write!(
                f,
                "Version Negotiation, destination ID at {}, source ID at {}, list at {}",
                At(destination),
                At(source),
                At(list)
            ),
        }
    }
}

// What Version Information says.
#[derive(Drop)]
struct Versions(Information);

impl fmt::Display for Versions {
    fn fmt<W: fmt::Write>(&self, f: &mut fmt::Formatter<W>) -> fmt::Result {
        let Information { chosen, available } = self.0;
        write!(f, "Chosen {chosen}, Available at {}", At(available))
    }
}

// A variable-length integer, and its width.
#[derive(Drop)]
struct Number(Integer);

impl fmt::Display for Number {
    fn fmt<W: fmt::Write>(&self, f: &mut fmt::Formatter<W>) -> fmt::Result {
        let Integer { value, width } = self.0;
        write!(f, "{value}, width {width}")
    }
}

// Where Version Information lies in a sequence of transport parameters.
#[derive(Drop)]
struct Place(Option<Span>);

impl fmt::Display for Place {
    fn fmt<W: fmt::Write>(&self, f: &mut fmt::Formatter<W>) -> fmt::Result {
        match self.0 {
            Some(part) => write!(f, "Version Information at {}", At(part)),
            None => write!(f, "Version Information missing"),
        }
    }
}

// A line with what a reader answered.
fn read<T: fmt::Display + Drop>(
    rt: &impl Print,
    label: &str,
    answer: Result<T, Refusal>,
) -> io::Result<()> {
    match answer {
        Ok(found) => println!(rt; "{label}{found}"),
        Err(refusal) => println!(rt; "{label}{}", Refused(refusal, Call::Reading)),
    }
}

// The header of a datagram.
pub(crate) fn header(rt: &impl Print, label: &str, datagram: &[u8], told: usize) -> io::Result<()> {
    read(rt, label, read_header(datagram, told).map(Form))
}

// The same of a few bytes.
pub(crate) fn header_of(rt: &impl Print, datagram: &[u8], told: usize) -> io::Result<()> {
    print!(rt; "header of{}, told length {told}", Hex(datagram))?;
    header(rt, ": ", datagram, told)
}

// Version Information that came.
pub(crate) fn received(
    rt: &impl Print,
    label: &str,
    sender: Sender,
    bytes: &[u8],
) -> io::Result<()> {
    read(rt, label, read_information(sender, bytes).map(Versions))
}

// An integer at the front of bytes.
pub(crate) fn integer_in(rt: &impl Print, bytes: &[u8]) -> io::Result<()> {
    print!(rt; "integer in{}", Hex(bytes))?;
    read(rt, ": ", read_integer(bytes).map(Number))
}

// Where Version Information lies in a sequence of transport parameters.
pub(crate) fn carried(rt: &impl Print, label: &str, sequence: &[u8]) -> io::Result<()> {
    read(rt, label, read_parameters(sequence).map(Place))
}

// What a writer answered.
#[derive(Drop)]
pub(crate) struct Written(pub Result<usize, Refusal>);

impl fmt::Display for Written {
    fn fmt<W: fmt::Write>(&self, f: &mut fmt::Formatter<W>) -> fmt::Result {
        match self.0 {
            Ok(count) => write!(f, "{count} bytes"),
            Err(refusal) => write!(f, "{}", Refused(refusal, Call::Writing)),
        }
    }
}

// A line with what a writer answered, and all of its buffer after the call.
pub(crate) fn wrote(
    rt: &impl Print,
    label: &str,
    answer: Result<usize, Refusal>,
    buffer: &[u8],
) -> io::Result<()> {
    println!(rt; "{label}{}, buffer{}", Written(answer), Hex(buffer))
}

//! The lines that load a program.
ghost use Rattle.std.specs.Prelude.{◌≤◌};

use bootstrap::BootFault;
use occam_units::{LARGEST_MEMORY, OccamFault, bytes_at, program_of, read_unit};
use script_text::TextWriter;
use std::alloc::{AllocError, Global};
use std::fmt;
use t414_assembly::{BOOTED, LOADED, LayoutFault, MOST_CODE, TextFault, assemble, loader, pokes};

/// Why a program isn't loaded.
#[derive(Drop)]
pub enum LoadFault {
    /// Its text is wrong.
    Text(TextFault),
    /// Its occam text is wrong: the first mistake.
    Occam(String),
    /// Its code has this number of bytes, and can't be loaded.
    Length(usize),
    Memory,
}

impl fmt::Display for LoadFault {
    fn fmt<W: fmt::Write>(&self, f: &mut fmt::Formatter<W>) -> fmt::Result {
        match self {
            LoadFault::Text(fault) => write!(f, "{fault}"),
            LoadFault::Occam(mistake) => f.write_str(mistake.as_str()),
            LoadFault::Length(count) => {
                write!(
                    f,
                    "the code has {count} bytes, and 2 to 65456 can be loaded"
                )
            }
            LoadFault::Memory => f.write_str("memory"),
        }
    }
}

impl From<TextFault> for LoadFault {
    fn from(fault: TextFault) -> LoadFault {
        match fault {
            TextFault::Memory(_) => LoadFault::Memory,
            fault => LoadFault::Text(fault),
        }
    }
}

impl From<LayoutFault> for LoadFault {
    fn from(_fault: LayoutFault) -> LoadFault {
        LoadFault::Memory
    }
}

impl From<AllocError> for LoadFault {
    fn from(_error: AllocError) -> LoadFault {
        LoadFault::Memory
    }
}

// The end of the name of a file that has an occam text.
const OCCAM: &str = ".occ";

/// Whether a file has an occam text, by its name.
pub fn is_occam_file(name: &str) -> bool {
    name.ends_with(OCCAM)
}

/// The lines by which a user loads the program of a file through a host: a boot with its code, or pokes and a boot that jumps
/// to them if the code is too long for one. Of a file whose name ends with `.occ` the text is the unit of its occam text, and any
/// other one has a text for the assembler.
pub fn loading_lines(
    alloc: Global,
    user: &str,
    host: &str,
    name: &str,
    text: &[u8],
) -> Result<String, LoadFault> {
    let code = code_at(alloc, BOOTED, name, text)?;
    match BootFault::of_length(code.len()) {
        None => Ok(boot_line(alloc, user, host, code.as_slice())?),
        Some(BootFault::TooShort) => Err(LoadFault::Length(code.len())),
        Some(_) => poking_lines(alloc, user, host, name, text),
    }
}

// The code of the program of a file, whose first byte has this address.
fn code_at(alloc: Global, origin: u32, name: &str, text: &[u8]) -> Result<Vec<u8>, LoadFault>
    requires { origin ≤ 0xffff_0000 }
{
    if is_occam_file(name) {
        compiled_code(alloc, origin, text)
    } else {
        Ok(assemble(alloc, origin, text)?.into_code())
    }
}

fn compiled_code(alloc: Global, origin: u32, unit: &[u8]) -> Result<Vec<u8>, LoadFault>
    requires { origin ≤ 0xffff_0000 }
{
    match unit_code(alloc, origin, unit) {
        Ok(code) => Ok(code),
        Err(fault) => Err(occam_fault(alloc, &fault)),
    }
}

fn unit_code(alloc: Global, origin: u32, json: &[u8]) -> Result<Vec<u8>, OccamFault>
    requires { origin ≤ 0xffff_0000 }
{
    let unit = read_unit(alloc, json)?;
    let program = program_of(alloc, &unit)?;
    bytes_at(alloc, origin, &program, LARGEST_MEMORY)
}

// The first mistake of an occam text.
fn occam_fault(alloc: Global, fault: &OccamFault) -> LoadFault {
    match fault {
        OccamFault::NoMemory => LoadFault::Memory,
        fault => match first_line(alloc, fault) {
            Ok(mistake) => LoadFault::Occam(mistake),
            Err(_) => LoadFault::Memory,
        },
    }
}

fn first_line(alloc: Global, fault: &OccamFault) -> Result<String, AllocError> {
    let mistakes = format!(in alloc; "{fault}")?;
    let (first, _) = mistakes
        .as_str()
        .split_once("\n")
        .unwrap_or((mistakes.as_str(), ""));
    String::from_str(alloc, first)
}

fn boot_line(alloc: Global, user: &str, host: &str, code: &[u8]) -> Result<String, AllocError> {
    let mut line = TextWriter::new(alloc);
    line.push(user);
    line.push(" boot ");
    line.push(host);
    line.push(" ");
    line.push_hex_bytes(code);
    line.push("\n");
    line.finish()
}

fn poking_lines(
    alloc: Global,
    user: &str,
    host: &str,
    name: &str,
    text: &[u8],
) -> Result<String, LoadFault> {
    let code = code_at(alloc, LOADED, name, text)?;
    if code.len() > (MOST_CODE - (LOADED - BOOTED)) as usize {
        return Err(LoadFault::Length(code.len()));
    }
    let boot = loader(alloc, code.len() as u32)?;
    Ok(pokes(alloc, host, user, boot.as_slice(), code.as_slice())?)
}

//! The kinds of hosts, by name and by number.
ghost use Rattle.std.specs.Prelude.{◌≡◌, Some};
ghost use Rattle.host.specs.Kinds.{kind_number, kind_of, name_of};

use std::fmt;

/// Which of the two hosts.
#[derive(Clone, Copy, PartialEq, Eq, Debug)]
pub enum HostKind {
    Scan,
    Table,
}

/// A number that stands for no host.
#[derive(Clone, Copy, PartialEq, Eq, Debug)]
pub struct UnknownHost;

/// The host of a number, as lines of digits name it.
impl TryFrom<u8> for HostKind {
    type Error = UnknownHost;

    ghost try_from_gives = { λ number r. r ≡ kind_of number };

    fn try_from(number: u8) -> Result<HostKind, UnknownHost> {
        match number {
            1 => Ok(HostKind::Scan),
            2 => Ok(HostKind::Table),
            _ => Err(UnknownHost),
        }
    }
}

/// The number of the host.
impl From<HostKind> for u8 {
    ghost from_gives = { λ kind number. number ≡ kind_number kind };

    fn from(kind: HostKind) -> u8 {
        match kind {
            HostKind::Scan => 1,
            HostKind::Table => 2,
        }
    }
}

impl fmt::Display for HostKind {
    ghost output = { λ kind. Some (name_of kind) };

    fn fmt<W: fmt::Write>(&self, f: &mut fmt::Formatter<W>) -> fmt::Result {
        f.write_str(match self {
            HostKind::Scan => "scan",
            HostKind::Table => "table",
        })
    }
}

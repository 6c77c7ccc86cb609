ghost use Rattle.floor.specs.Rules.{blocking_of, lawful_rule, rule_number, rule_of, name_of};
ghost use Rattle.std.specs.Prelude.{◌≡◌, Some};

use super::Planariser;
use super::gabriel::Gabriel;
use super::relative::Relative;
use plane::Point;
use std::fmt;

/// One of the two planarisers, picked at run time.
#[derive(Clone, Copy, PartialEq, Eq, Debug)]
pub enum Rule {
    Gabriel,
    Relative,
}

/// A number that stands for no planariser.
#[derive(Clone, Copy, PartialEq, Eq, Debug)]
pub struct UnknownRule;

impl Planariser for Rule {
    ghost blocking = { blocking_of };

    ghost lawful = { lawful_rule };

    fn blocks(&self, u: Point, v: Point, w: Point) -> bool {
        match self {
            Rule::Gabriel => Gabriel.blocks(u, v, w),
            Rule::Relative => Relative.blocks(u, v, w),
        }
    }
}

/// The planariser of a number, as lines of digits name it.
impl TryFrom<u8> for Rule {
    type Error = UnknownRule;

    ghost try_from_gives = { λ number r. r ≡ rule_of number };

    fn try_from(number: u8) -> Result<Rule, UnknownRule> {
        match number {
            1 => Ok(Rule::Gabriel),
            2 => Ok(Rule::Relative),
            _ => Err(UnknownRule),
        }
    }
}

/// The number of the planariser.
impl From<Rule> for u8 {
    ghost from_gives = { λ rule number. number ≡ rule_number rule };

    fn from(rule: Rule) -> u8 {
        match rule {
            Rule::Gabriel => 1,
            Rule::Relative => 2,
        }
    }
}

impl fmt::Display for Rule {
    ghost output = { λ rule. Some (name_of rule) };

    fn fmt<W: fmt::Write>(&self, f: &mut fmt::Formatter<W>) -> fmt::Result {
        f.write_str(match self {
            Rule::Gabriel => "Gabriel",
            Rule::Relative => "relative",
        })
    }
}

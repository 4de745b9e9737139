//! What is left of the budgets of a network, and of the openings and closings of its roster.

ghost use Rattle.std.specs.Prelude.{◌≡◌, ◌++◌, OnOk, string_bytes};
ghost use Rattle.live_network.specs.Left.{all_left, left_line, left_of, text_of_opens};

use host_config::NetConfig;
use host_network::Used;
use line_request::Outline;
use std::alloc::AllocError;
use std::fmt::Write;

/// How many events, delivered bytes and open slots the budgets of a network still allow, and how many openings and
/// closings its roster; none if it has no roster.
#[derive(Clone, Copy, Debug, PartialEq, Eq)]
pub struct Left {
    pub events: u64,
    pub bytes: u64,
    pub slots: u64,
    pub opens: Option<u64>,
}

/// What is left of a network that an event has named: what is configured, less what is used.
pub fn left_of(config: &NetConfig, used: Used) -> Left
    ensures { result ≡ left_of config.now used }
{
    let budgets = config.budgets();
    let opens = match config.roster() {
        None => None,
        Some(roster) => Some(roster.shares().opens().saturating_sub(used.opens)),
    };
    Left {
        events: budgets.events().saturating_sub(used.events),
        bytes: budgets.bytes().saturating_sub(used.bytes),
        slots: budgets.slots().saturating_sub(used.slots as u64),
        opens,
    }
}

/// What is left of a network that no event has named: all that has been declared.
pub fn all_left(outline: &Outline) -> Left
    ensures { result ≡ all_left outline.now }
{
    let budgets = outline.budgets();
    Left {
        events: budgets.events(),
        bytes: budgets.bytes(),
        slots: budgets.slots(),
        opens: outline.opens(),
    }
}

/// Adds the line of what is left of a network. It has the number of the line that is answered and that of the network.
/// Then come `events`, `bytes`, `slots` and `opens`, a number behind each.
pub fn push_left(text: &mut String, line: u64, network: u32, left: Left) -> Result<(), AllocError>
    ensures { OnOk result (string_bytes text.new ≡ string_bytes text.old ++ left_line line network left) }
{
    let Left {
        events,
        bytes,
        slots,
        opens,
    } = left;
    write!(
        text,
        "{line} {network} events {events} bytes {bytes} slots {slots} opens "
    )?;
    push_opens(text, opens)?;
    text.push('\n')
}

/// Adds a number, or `-` if there is none.
fn push_opens(text: &mut String, opens: Option<u64>) -> Result<(), AllocError>
    ensures { OnOk result (string_bytes text.new ≡ string_bytes text.old ++ text_of_opens opens) }
{
    match opens {
        None => text.push('-'),
        Some(opens) => write!(text, "{opens}"),
    }
}

//! What a line of a script orders if some networks are served and others are not.

ghost use Rattle.std.specs.Prelude.{◌≡◌, Err, IfOk, None, Some, map};
ghost use Rattle.line_request.specs.Ordering.{IsLineOrder, declared_by, order_by};

use crate::ask::{Ask, ask_of};
use crate::request::{Declaration, Request, asked_by};
use host_config::Budgets;
use line_script::LineError;
use scp_types::Bytes;
use std::alloc::{AllocError, Global};

/// What a line orders, of the network that it names.
#[derive(Drop)]
pub enum Order {
    /// What lines may ask of any network.
    Request(Request),
    /// The network is declared with its budgets, and served.
    Serve(Budgets),
    /// These bytes reach each hosted node of the network, which is served, one after the other.
    ForAll(Bytes),
    /// The network, which is served, is taken back.
    Drop,
}

/// The number of the network that a line names, and what it orders. The line is bad if it has none of the forms.
pub fn order_of(alloc: Global, fields: &[&[u8]]) -> Result<(u32, Order), LineError>
    ensures ordered { IfOk result (λ r. IsLineOrder (map (λ field. field.now) fields.now) (Some (r.0, r.1))) }
    ensures bad { result ≡ Err LineError.Bad → IsLineOrder (map (λ field. field.now) fields.now) None }
{
    ordered_by(alloc, fields)?.ok_or(LineError::Bad)
}

/// `None` if the line has none of the forms.
fn ordered_by(alloc: Global, fields: &[&[u8]]) -> Result<Option<(u32, Order)>, AllocError>
    ensures { IfOk result (IsLineOrder (map (λ field. field.now) fields.now)) }
{
    match asked_by(alloc, fields)? {
        Some((number, request)) => Ok(Some((number, Order::Request(request)))),
        None => match ask_of(alloc, fields)? {
            Some((number, ask)) => Ok(order_by(number, ask)),
            None => Ok(None),
        },
    }
}

/// What a line orders that is no [`Request`], but asks this of a live host. Scripts have no questions.
fn order_by(number: u32, ask: Ask) -> Option<(u32, Order)>
    ensures { result ≡ order_by (number, ask) }
{
    match ask {
        Ask::Declare(declaration) => declared_by(number, declaration),
        Ask::ForAll(bytes) => Some((number, Order::ForAll(bytes))),
        Ask::Drop => Some((number, Order::Drop)),
        Ask::Serve(_) | Ask::Left | Ask::Show(..) => None,
    }
}

/// Only the `net` line of a served network has a form of its own.
fn declared_by(number: u32, declaration: Declaration) -> Option<(u32, Order)>
    ensures { result ≡ declared_by number declaration }
{
    match declaration {
        Declaration::Net(budgets) => Some((number, Order::Serve(budgets))),
        _ => None,
    }
}

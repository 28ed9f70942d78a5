// Filter expressions, which are compiled to programs and run here.

ghost use Rattle.std.specs.Prelude.{◌≡◌, IfOk, option_map, slice_get, string_bytes};
ghost use Rattle.filter.specs.Filters.{tree_of};
ghost use Rattle.filter_compile.specs.Names.{names_of};

use bpf_machine::run;
use bpf_verify::Verified;
use filter::{FaultAt, Filter, FilterError, one_reading};
use filter_compile::{CompileError, Names, compile};
use filter_reasons::{near_tests, push_near_tests};
use message_view::View;
use std::alloc::{AllocError, Global};
use std::error::Error;
use std::fmt;
use std::marker::Model;
use summary::{Edition, Image, Slots};

/// What a filter expression is refused for.
#[derive(Debug, Drop)]
pub enum FilterFault {
    /// It reads as no filter.
    Text(FaultAt),
    /// Its program might be too long.
    TooHeavy,
    /// It asks who owns this name, which isn't known here.
    SenderName(String),
}

impl fmt::Display for FilterFault {
    ghost use Rattle.std.specs.Prelude.{Some};
    ghost use Rattle.watch_command.specs.FilterFaults.{filter_fault_text};

    ghost output = { λ fault. Some (filter_fault_text fault) };

    fn fmt<W: fmt::Write>(&self, f: &mut fmt::Formatter<W>) -> fmt::Result {
        match self {
            FilterFault::Text(at) => write!(f, "{at}"),
            FilterFault::TooHeavy => f.write_str("TooHeavy"),
            FilterFault::SenderName(name) => write!(f, "SenderName {name}"),
        }
    }
}

impl Error for FilterFault {}

/// Why a text is no expression that can be run here.
#[derive(Debug, Drop)]
pub(crate) enum ExpressionError {
    Filter(FilterFault),
    NoMemory,
}

/// A filter expression that asks who owns no name, with its filter and its program for images of edition 2. Contracts see its text.
#[derive(Drop)]
pub(crate) struct Expression {
    text: String,
    filter: Filter,
    program: Verified,
}

impl Model for Expression {
    ghost use Rattle.std.specs.Prelude.{ℕ, List, string_bytes};
    ghost use Rattle.filter.specs.Filters.{tree_of};
    ghost use Rattle.watch_command.specs.Expressions.{IsExpression};

    ghost Value = { List ℕ };

    ghost view = { λ e. string_bytes e.text };

    ghost invariant = { λ e. IsExpression (string_bytes e.text) (tree_of e.filter) e.program };
}

impl Expression {
    ghost use Rattle.std.specs.Prelude.{◌≡◌, ◌↔◌, IsTrue, IfOk, IfErr, string_bytes};
    ghost use Rattle.message_view.specs.Message.{Message};
    ghost use Rattle.message_view.specs.Valid.{Valid};
    ghost use Rattle.watch_command.specs.Owners.{Ownerships};
    ghost use Rattle.watch_command.specs.Showing.{TakesExpression, IsNearExpression, TellsTests};
    ghost use Rattle.watch_command.specs.FilterFaults.{IsRefusal};

    /// Reads and compiles an expression.
    ///
    /// # Errors
    ///
    /// The first fault of a text that is no filter, else `TooHeavy`, else the first name whose owner it asks for, and
    /// `NoMemory`.
    pub(crate) fn read(alloc: Global, text: &str) -> Result<Expression, ExpressionError>
        ensures found { IfOk result (λ expression. expression ≡ text.now) }
        ensures refused { IfErr result (IsRefusal text.now) }
    {
        let filter = Filter::read(alloc, text)?;
        let program = compile(alloc, &filter)?;
        if let Some(name) = name_asked(alloc, &filter)? {
            return Err(ExpressionError::Filter(FilterFault::SenderName(name)));
        }
        let text = String::from_str(alloc, text)?;
        Ok(Expression {
            text,
            filter,
            program,
        })
    }

    /// Whether the expression holds of a message. Who owns which names is the same to it.
    pub(crate) fn holds(&self, view: &View<'_>) -> bool
        ensures { (m : Message) (owners : Ownerships) → Valid view.now m → (IsTrue result ↔ TakesExpression owners m self.now) }
    {
        one_reading();
        let owned = Slots::empty();
        let image = Image::new(view, &owned, Edition::Two);
        run(&self.program, &image).verdict != 0
    }

    /// Whether the expression doesn't hold of a message, but would if one of its tests alone came out the other way.
    pub(crate) fn is_near(&self, alloc: Global, view: &View<'_>) -> Result<bool, ExpressionError>
        ensures { IfOk result (λ near. (m : Message) → Valid view.now m → IsNearExpression m self.now near) }
    {
        let near = near_tests(alloc, &self.filter, view, false)?;
        Ok(!near.is_empty())
    }

    /// These tests, in lines with a front before each.
    pub(crate) fn reasons(
        &self,
        alloc: Global,
        front: &str,
        view: &View<'_>,
    ) -> Result<String, ExpressionError>
        ensures { IfOk result (λ text. (m : Message) → Valid view.now m → TellsTests front.now m self.now (string_bytes text)) }
    {
        let mut text = String::new(alloc);
        push_near_tests(alloc, &mut text, front, &self.filter, view, false)?;
        Ok(text)
    }
}

/// The first name whose owner a filter asks for.
fn name_asked(alloc: Global, filter: &Filter) -> Result<Option<String>, AllocError>
    ensures { IfOk result (λ name. option_map string_bytes name ≡ slice_get (names_of (tree_of filter.now)) 0) }
{
    let names = Names::of(alloc, filter)?;
    match names.as_slice().first() {
        Some(name) => Ok(Some(String::from_str(alloc, name)?)),
        None => Ok(None),
    }
}

impl From<FilterError> for ExpressionError {
    ghost use Rattle.watch_command.specs.FilterFaults.{error_of_filter};

    ghost from_gives = { λ refused error. error ≡ error_of_filter refused };

    fn from(refused: FilterError) -> ExpressionError {
        match refused {
            FilterError::Fault(at) => ExpressionError::Filter(FilterFault::Text(at)),
            FilterError::NoMemory => ExpressionError::NoMemory,
        }
    }
}

impl From<CompileError> for ExpressionError {
    ghost use Rattle.watch_command.specs.FilterFaults.{error_of_compiling};

    ghost from_gives = { λ refused error. error ≡ error_of_compiling refused };

    fn from(refused: CompileError) -> ExpressionError {
        match refused {
            CompileError::TooHeavy => ExpressionError::Filter(FilterFault::TooHeavy),
            CompileError::NoMemory => ExpressionError::NoMemory,
        }
    }
}

impl From<AllocError> for ExpressionError {
    ghost use Rattle.watch_command.specs.declared.expression.ExpressionError.TheVariants.{NoMemory};

    ghost from_gives = { λ _ error. error ≡ NoMemory };

    fn from(_refused: AllocError) -> ExpressionError {
        ExpressionError::NoMemory
    }
}

//! Reading a text.

ghost use Rattle.std.specs.Prelude.{◌≡◌, ◌<◌, ◌^◌, length};
ghost use Rattle.create_reader.specs.Outcome.{IsAnswer, fault_from};
ghost use Rattle.create_reader.specs.Laws.{IsOnly, IsOnlyFault};

use crate::constraints::{early_fault, table_of};
use crate::faults::CreateFault;
use crate::meaning::shape_of;
use create_grammar::{GrammarFault, read_words};
use std::alloc::Global;
use table_shape::TableShape;

/// The shape of the table that a CREATE TABLE text makes, or the first fault of `CreateFault` that
/// holds.
pub fn read_create(alloc: Global, sql: &[u8]) -> Result<TableShape, CreateFault>
    requires { length sql.now < 2 ^ 32 }
    // What is answered is so: the text means the shape without a fault, or has the fault.
    ensures found { IsAnswer sql.now result }
    // What is so is answered, unless memory runs out.
    ensures only { IsOnly sql.now result }
    ensures fault { IsOnlyFault sql.now result }
{
    read(alloc, sql)
}

fn read(alloc: Global, sql: &[u8]) -> Result<TableShape, CreateFault>
    requires { length sql.now < 2 ^ 32 }
    ensures { IsAnswer sql.now result }
{
    let said = match read_words(alloc, sql) {
        Ok(said) => said,
        Err(fault) => return Err(fault_from(fault)),
    };
    if let Some(fault) = early_fault(said.as_slice()) {
        return Err(fault);
    }
    let Ok(table) = table_of(alloc, sql, said.as_slice()) else {
        return Err(CreateFault::Memory);
    };
    shape_of(alloc, table)
}

fn fault_from(fault: GrammarFault) -> CreateFault
    ensures { result ≡ fault_from fault }
{
    match fault {
        GrammarFault::Virtual => CreateFault::Virtual,
        GrammarFault::Form { at } => CreateFault::Form { at },
        GrammarFault::Memory => CreateFault::Memory,
    }
}

//! What stands before the first command of a trace: the lines that say what the store is.

ghost use Rattle.std.specs.Prelude.{◌≡◌, ◌∷◌, [], IfOk, OnErr};
ghost use Rattle.std.specs.Result.{result_err};
ghost use Rattle.trace_lines.specs.Faults.{fault_of_config};
ghost use Rattle.bump_trace.specs.Stages.{config_fault, declared, opened};
ghost use Rattle.bump_trace.specs.Views.{opening_of, Does, Configures};

use bump_core::{ClassConfig, Config, ConfigFault};
use std::alloc::Global;
use trace_lines::{Declaration, Fault, LineError, Shape};

/// What the lines before the first command said.
#[derive(Drop)]
pub enum Opening {
    /// No line but skipped ones.
    Before,

    /// After `store`, among the lines `class`: what they said.
    Classes(Shape, Vec<ClassConfig>),
}

// The fault that a configuration's fault is.
fn fault_of(fault: ConfigFault) -> Fault
    ensures { result ≡ fault_of_config fault }
{
    match fault {
        ConfigFault::Workers => Fault::Workers,
        ConfigFault::Capacity => Fault::Capacity,
        ConfigFault::RefsLimit => Fault::Refs,
        ConfigFault::Generation => Fault::Generation,
        ConfigFault::Classes => Fault::Classes,
        ConfigFault::Chunks => Fault::Chunks,
    }
}

// The configuration that the lines `store` and `class` say.
fn config(shape: Shape, classes: Vec<ClassConfig>) -> Result<Config, Fault>
    ensures fault { result_err result ≡ config_fault shape classes.items }
    ensures counts { IfOk result (λ c. (c.workers ≡ shape.workers) × (c.capacity ≡ shape.capacity)) }
    ensures limits { IfOk result (λ c. (c.refs_limit ≡ shape.refs_limit)
        × (c.first_generation ≡ shape.first_generation)) }
    ensures classes { IfOk result (λ c. c.classes ≡ classes.items) }
{
    match Config::new(
        shape.workers,
        shape.capacity,
        shape.refs_limit,
        shape.first_generation,
        classes,
    ) {
        Ok(config) => Ok(config),
        Err(fault) => Err(fault_of(fault)),
    }
}

/// Says what the store is, or what a class is. It is refused as ORDER where the line may not stand there, and for want
/// of memory; the opening is as it was then.
#[tactic(auto, unfolding(crate::specs::Stages::declared))]
pub fn declare(
    opening: &mut Opening,
    alloc: Global,
    declaration: Declaration,
) -> Result<(), LineError>
    ensures said { Does (opening_of opening.new) [] result (declared (opening_of opening.old) declaration) }
    ensures unchanged { OnErr result (opening_of opening.new ≡ opening_of opening.old) }
{
    match (&mut *opening, declaration) {
        (Opening::Before, Declaration::Store(shape)) => {
            *opening = Opening::Classes(shape, Vec::new(alloc));
            Ok(())
        }
        (Opening::Classes(_, classes), Declaration::Class(class)) => {
            classes.push(class)?;
            Ok(())
        }
        _ => Err(LineError::Fault(Fault::Order)),
    }
}

/// The configuration with which the first command opens a store, or the end of the input does. It is refused as ORDER
/// where `store` wasn't said, and else by the configuration's first fault.
#[tactic(auto, unfolding(crate::specs::Stages::opened))]
pub fn configure(opening: Opening) -> Result<Config, Fault>
    ensures { Configures result (opened (opening_of opening)) }
{
    match opening {
        Opening::Before => Err(Fault::Order),
        Opening::Classes(shape, classes) => config(shape, classes),
    }
}

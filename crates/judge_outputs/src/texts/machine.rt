//! The machine of a text as plain data.
ghost use Rattle.std.specs.Prelude.{◌≡◌, ◌∷◌, IfOk, IsTrue, OnOk, Some, slice_get, slice_set};
ghost use Rattle.model_core.specs.declared.graph.Value.TheVariants.{Int};
ghost use Rattle.judge_outputs.specs.Sections.Machine.{opened_by};
ghost use Rattle.judge_outputs.specs.Texts.Keys.{taken_out};
ghost use Rattle.judge_outputs.specs.Texts.Playing.{label_of, once_gone};
ghost use Rattle.weak_laws.specs.Tables.Structures.{without};
ghost use Rattle.table_text.specs.Machine.Machine.{MayGo, key_in, opened, with_key};

use crate::texts::bindings::push_without;
use crate::texts::places::{is_held, without_key};
use model_core::graph::Value;
use model_core::label::Label;
use std::alloc::{AllocError, Global};
use std::marker::Model;

/// A key that goes before a line, each told by the number of a line, counted from 0.
#[derive(Clone, Copy, Debug, PartialEq, Eq)]
pub struct Gone {
    /// The line that made the key.
    pub key: u32,
    /// The line before which it goes.
    pub before: u32,
}

/// The label of the key that a line makes.
pub(crate) fn label_of(line: u32) -> Label
    ensures { result ≡ label_of line }
{
    Label {
        domain: 0,
        serial: line,
    }
}

/// The keys in registers and slots, and the bindings.
#[derive(Drop)]
pub(crate) struct Machine {
    pub(crate) registers: Vec<Option<Label>>,
    pub(crate) bindings: Vec<(Label, Value)>,
    pub(crate) slots: Vec<Option<Label>>,
}

impl Model for Machine {
    ghost use Rattle.table_text.specs.Machine.Machine.{TableState};

    ghost Value = { TableState };

    ghost view = { λ m. record { registers = m.registers.items; bindings = m.bindings.items; slots = m.slots.items } };
}

impl Machine {
    /// The machine before the first line.
    pub(crate) fn new(alloc: Global) -> Result<Machine, AllocError>
        ensures { IfOk result (λ m. m ≡ opened) }
    {
        Ok(Machine {
            registers: vec![in alloc; None; 5]?,
            bindings: Vec::new(alloc),
            slots: vec![in alloc; None; 16]?,
        })
    }

    /// The machine of so many domains before the first line.
    pub(crate) fn of_domains(alloc: Global, domains: u8) -> Result<Machine, AllocError>
        ensures { IfOk result (λ m. m ≡ opened_by domains) }
    {
        Ok(Machine {
            registers: vec![in alloc; None; 5 * usize::from(domains)]?,
            bindings: Vec::new(alloc),
            slots: vec![in alloc; None; 16]?,
        })
    }

    /// The same machine again.
    pub(crate) fn copy(&self) -> Result<Machine, AllocError>
        ensures { IfOk result (λ m. m ≡ self.now) }
    {
        Ok(Machine {
            registers: self.registers.clone()?,
            bindings: self.bindings.clone()?,
            slots: self.slots.clone()?,
        })
    }

    /// What a register holds.
    pub(crate) fn key_in(&self, reg: u8) -> Option<Label>
        ensures { result ≡ key_in self.now reg }
    {
        let index = usize::from(reg).saturating_sub(1);
        if index < self.registers.len() {
            self.registers[index]
        } else {
            None
        }
    }

    /// Has a register hold a key or nothing.
    pub(crate) fn hold(&mut self, reg: u8, key: Option<Label>)
        ensures { self.new ≡ with_key self.old reg key }
    {
        let index = usize::from(reg).saturating_sub(1);
        if index < self.registers.len() {
            self.registers[index] = key;
        }
    }

    /// What a slot holds, if there is one of this number.
    pub(crate) fn slot(&self, slot: u8) -> Option<Option<Label>>
        ensures { result ≡ slice_get self.now.slots slot }
    {
        let index = usize::from(slot);
        if index < self.slots.len() {
            Some(self.slots[index])
        } else {
            None
        }
    }

    /// Has a slot hold a key.
    pub(crate) fn set_slot(&mut self, slot: u8, key: Label)
        ensures { self.new ≡ record self.old { slots = slice_set self.old.slots slot (Some key) } }
    {
        let index = usize::from(slot);
        if index < self.slots.len() {
            self.slots[index] = Some(key);
        }
    }

    /// Takes a binding out.
    pub(crate) fn unbind(&mut self, alloc: Global, key: Label) -> Result<(), AllocError>
        ensures { OnOk result (self.new ≡ record self.old { bindings = without key self.old.bindings }) }
    {
        let mut left = Vec::new(alloc);
        push_without(&mut left, &self.bindings, key)?;
        self.bindings = left;
        Ok(())
    }

    /// Binds a key to an integer.
    pub(crate) fn bind(&mut self, alloc: Global, key: Label, value: i64) -> Result<(), AllocError>
        ensures { OnOk result (self.new ≡ record self.old { bindings = (key, Int value) ∷ without key self.old.bindings }) }
    {
        let mut bindings = Vec::new(alloc);
        bindings.push((key, Value::Int(value)))?;
        push_without(&mut bindings, &self.bindings, key)?;
        self.bindings = bindings;
        Ok(())
    }

    /// Takes a key out of the bindings and of all slots.
    pub(crate) fn take_out(&mut self, alloc: Global, key: Label) -> Result<(), AllocError>
        ensures { OnOk result (self.new ≡ taken_out key self.old) }
    {
        self.unbind(alloc, key)?;
        self.slots = without_key(alloc, &self.slots, key)?;
        Ok(())
    }

    /// Takes out what goes before a line, and answers whether no register holds any of it.
    pub(crate) fn let_go(
        &mut self,
        alloc: Global,
        line: u32,
        gone: &[Gone],
    ) -> Result<bool, AllocError>
        ensures goes { IfOk result (λ yes. IsTrue yes → MayGo self.old self.new) }
        ensures gone { IfOk result (λ yes. IsTrue yes → self.new ≡ once_gone gone.now line self.old) }
    {
        for one in gone {
            if one.before == line {
                let key = label_of(one.key);
                if is_held(&self.registers, key) {
                    return Ok(false);
                }
                self.take_out(alloc, key)?;
            }
        }
        Ok(true)
    }
}

//! The variables of a task that is drawn.

ghost use Rattle.std.specs.Prelude.{◌≡◌, ◌<◌, ◌≤◌, IfOk, length, vec_len};

use crate::random::Random;
use std::alloc::Global;
use symk_task::{Fact, List, Memory, Name, Variable};

/// A variable, without its names.
#[derive(Clone, Copy)]
pub struct Kind {
    /// The layer of a derived variable.
    pub layer: Option<u32>,
    /// How many values it has.
    pub values: u32,
    /// The value that the task states for it.
    pub initial: u32,
    ghost some: { 0 < values },
}

impl Kind {
    /// A base variable of 2 or 3 values.
    fn base(random: &mut Random) -> Kind {
        let values = 2 + random.below(2);
        Kind {
            layer: None,
            values,
            initial: random.below(values),
        }
    }

    /// A derived variable of layer 0 or 1.
    fn derived(random: &mut Random) -> Kind {
        Kind {
            layer: Some(random.below(2)),
            values: 2,
            initial: random.below(2),
        }
    }

    /// Another value than the one that the task states: of a derived variable the one that is not its default.
    pub fn other(self) -> u32 {
        1u32.saturating_sub(self.initial)
    }

    /// The variable, its names all empty.
    fn variable(self, alloc: Global) -> Result<Variable, Memory> {
        let mut values = Vec::new(alloc);
        for _ in 0..self.values {
            values.push(Name::of(Vec::new(alloc)))?;
        }
        Ok(Variable {
            name: Name::of(Vec::new(alloc)),
            layer: self.layer,
            values: List::of(values),
        })
    }
}

/// The variables of a task, those of the base first.
#[derive(Drop)]
pub struct Kinds {
    items: Vec<Kind>,
    /// How many are base variables.
    bases: u32,
    ghost some: { 0 < bases },
    ghost within: { bases ≤ vec_len items },
    ghost few: { vec_len items ≤ 7 },
}

impl Kinds {
    /// 2 to 4 base variables and up to 3 derived ones.
    pub fn drawn(alloc: Global, random: &mut Random) -> Result<Kinds, Memory> {
        let bases = 2 + random.below(3);
        let derived = random.below(4);
        let mut items = Vec::new(alloc);
        'bases: for _ in 0..bases {
            items.push(Kind::base(random))?;
        }
        'derived: for _ in 0..derived {
            items.push(Kind::derived(random))?;
        }
        Ok(Kinds { items, bases })
    }

    /// How many are base variables.
    pub fn bases(&self) -> u32
        ensures { result ≡ self.now.bases }
    {
        self.bases
    }

    /// The variables, in order.
    pub fn as_slice(&self) -> &[Kind]
        ensures value { result.now ≡ self.now.items.items }
        ensures few { length result.now ≤ 7 }
    {
        &self.items
    }

    /// The task's variables.
    pub fn variables(&self, alloc: Global) -> Result<List<Variable>, Memory>
        ensures { IfOk result (λ list. length list ≤ 7) }
    {
        let mut variables = Vec::new(alloc);
        'kinds: for kind in self.items.as_slice() {
            variables.push(kind.variable(alloc)?)?;
        }
        Ok(List::of(variables))
    }

    /// The values that the task states for them.
    pub fn initial(&self, alloc: Global) -> Result<List<u32>, Memory> {
        let mut values = Vec::new(alloc);
        for kind in self.items.as_slice() {
            values.push(kind.initial)?;
        }
        Ok(List::of(values))
    }

    /// The number of a base variable, and its kind.
    pub fn drawn_base(&self, random: &mut Random) -> (u32, Kind) {
        let var = random.below(self.bases);
        (var, self.items[var as usize])
    }

    /// The number of the `i`-th base variable, counted round and round, and its kind.
    pub fn base_at(&self, i: u32) -> (u32, Kind) {
        let var = i % self.bases;
        (var, self.items[var as usize])
    }

    /// The number of a variable, and its kind.
    pub fn drawn_any(&self, random: &mut Random) -> (u32, Kind) {
        let var = random.below(self.items.len() as u32);
        (var, self.items[var as usize])
    }

    /// A fact of any variable.
    pub fn drawn_fact(&self, random: &mut Random) -> Fact {
        let (var, kind) = self.drawn_any(random);
        let val = random.below(kind.values);
        Fact { var, val }
    }

    /// So many facts of any variables.
    pub fn drawn_facts(
        &self,
        alloc: Global,
        random: &mut Random,
        count: u32,
    ) -> Result<List<Fact>, Memory> {
        let mut facts = Vec::new(alloc);
        for _ in 0..count {
            facts.push(self.drawn_fact(random))?;
        }
        Ok(List::of(facts))
    }

    /// What a rule for this layer may have among its conditions: any fact of a base variable or of a lower layer, and
    /// of its own layer that a variable has its other value.
    pub fn drawn_condition(&self, random: &mut Random, layer: u32) -> Fact {
        let (var, kind) = self.drawn_any(random);
        let val = random.below(kind.values);
        match kind.layer {
            Some(other) if other == layer => Fact {
                var,
                val: kind.other(),
            },
            Some(other) if other > layer => {
                let (var, kind) = self.drawn_base(random);
                let val = random.below(kind.values);
                Fact { var, val }
            }
            _ => Fact { var, val },
        }
    }
}

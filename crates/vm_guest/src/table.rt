use std::marker::Model;
use vm_chain::Desc;

/// The descriptors of a chain.
#[derive(Drop)]
pub struct Table {
    pub descs: Vec<Desc>,
}

impl Model for Table {
    ghost use Rattle.std.specs.Prelude.{List};
    ghost use Rattle.vm_chain.specs.declared.desc.Desc.{Desc};

    ghost Value = { List Desc };

    ghost view = { λ t. t.descs.items };
}

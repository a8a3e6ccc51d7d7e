//! The machine on two small texts. It does nothing when it runs.
ghost use Rattle.model_core.specs.declared.state.Sizes.{Sizes};
ghost use Rattle.table_text.specs.declared.version.Version.{Version};
ghost use Rattle.table_text.specs.Machine.Machine.{MachineAnswers};
ghost use Rattle.table_text.specs.Machine.Rows.{binding_lines, binding_replies, slot_lines, slot_replies};

/// The machine may answer two texts so, whatever their version and the sizes of the heap: bindings are put, counted and taken,
/// and one goes with its key; and a slot keeps no key.
pub fn rows()
    ensures bindings { (v : Version) (z : Sizes) → MachineAnswers v z binding_lines binding_replies }
    ensures slots { (v : Version) (z : Sizes) → MachineAnswers v z slot_lines slot_replies }
{}

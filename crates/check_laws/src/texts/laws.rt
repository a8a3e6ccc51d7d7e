//! Laws of texts of tables. Each function's contract is one law, and it does nothing else.
ghost use Rattle.check_laws.specs.Texts.Agreeing.{TextsAgree, apart_replies, back_lines, found_replies, gone_replies, kept_replies, parting_lines};
ghost use Rattle.model_core.specs.declared.state.Sizes.{Sizes};
ghost use Rattle.table_text.specs.declared.version.Version.{Version};
ghost use Rattle.table_text.specs.Machine.Machine.{MachineAnswers};

/// Two runs of one text of a table, in none of which an allocation was refused, are answered the same, whatever the
/// collector did in each: but for counts, which differ by bindings whose key no register holds, and for a look at a slot
/// whose key none holds. So it goes on until such a look is answered otherwise in the other run.
pub fn texts_agree()
    ensures { TextsAgree }
{}

/// Where that ends: a look at a slot whose key no register holds may be answered in two ways.
pub fn texts_part()
    ensures found { (version : Version) (z : Sizes) → MachineAnswers version z parting_lines found_replies }
    ensures gone { (version : Version) (z : Sizes) → MachineAnswers version z parting_lines gone_replies }
{}

/// Where it goes on: a key that a slot gives back has its binding, and never comes without it.
pub fn keys_come_whole()
    ensures kept { (version : Version) (z : Sizes) → MachineAnswers version z back_lines kept_replies }
    ensures never { (version : Version) (z : Sizes) → MachineAnswers version z back_lines apart_replies → ⊥ }
{}

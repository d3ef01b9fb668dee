// That ready blocks do what the blocks of the program do.
ghost use Rattle.v1model_program.specs.Laws.{ReadyBlocksDo};

/// The blocks of a program that breaks no rule, where they are made ready, do what its blocks do. It does nothing.
pub fn ready_blocks_do()
    ensures { ReadyBlocksDo }
{}

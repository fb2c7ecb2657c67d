// What C can call of columns, and nothing else: thin functions, each with the contract of the function that it calls. luffa_columns_c exports
// them to C.
#![tactic(auto)]

ghost use Rattle.std.specs.Prelude.{◌≡◌};
ghost use Rattle.columns_definition.specs.Columns.{from_words_outcome, to_words_outcome, from_message_outcome, inject_outcome};

// The words of a state by columns.
pub fn luffa_columns_from_words(code: usize, words: &[u32], dump: &mut [u8]) -> u32
    ensures { record { number = result; buffer = dump.new } ≡ from_words_outcome code words.now dump.old }
{
    refusals::number_of(columns::from_words(code, words, dump))
}

// A state's columns as words.
pub fn luffa_words_from_columns(code: usize, dump: &[u8], words: &mut [u32]) -> u32
    ensures { record { number = result; buffer = words.new } ≡ to_words_outcome code dump.now words.old }
{
    refusals::number_of(columns::to_words(code, dump, words))
}

// A message block by columns.
pub fn luffa_columns_from_message(block: &[u8], dump: &mut [u8]) -> u32
    ensures { record { number = result; buffer = dump.new } ≡ from_message_outcome block.now dump.old }
{
    refusals::number_of(columns::from_message(block, dump))
}

// A message block's columns injected into a state's.
pub fn luffa_columns_inject(code: usize, dump: &mut [u8], message: &[u8]) -> u32
    ensures { record { number = result; buffer = dump.new } ≡ inject_outcome code dump.old message.now }
{
    refusals::number_of(columns_inject::inject(code, dump, message))
}

// The exports of luffa_columns, one for each of its functions and with its contract. They stand apart from those of luffa_c because a static
// library is compiled to one object: so a program that calls none of these links neither their code nor the product tables.
#![tactic(auto)]

ghost use Rattle.std.specs.Prelude.{◌≡◌};
ghost use Rattle.columns_definition.specs.Columns.{from_words_outcome, to_words_outcome, from_message_outcome, inject_outcome};

// The words of a state by columns.
#[unsafe(no_mangle)]
pub extern "C" fn luffa_columns_from_words(code: usize, words: &[u32], dump: &mut [u8]) -> u32
    ensures { record { number = result; buffer = dump.new } ≡ from_words_outcome code words.now dump.old }
{
    luffa_columns::luffa_columns_from_words(code, words, dump)
}

// A state's columns as words.
#[unsafe(no_mangle)]
pub extern "C" fn luffa_words_from_columns(code: usize, dump: &[u8], words: &mut [u32]) -> u32
    ensures { record { number = result; buffer = words.new } ≡ to_words_outcome code dump.now words.old }
{
    luffa_columns::luffa_words_from_columns(code, dump, words)
}

// A message block by columns.
#[unsafe(no_mangle)]
pub extern "C" fn luffa_columns_from_message(block: &[u8], dump: &mut [u8]) -> u32
    ensures { record { number = result; buffer = dump.new } ≡ from_message_outcome block.now dump.old }
{
    luffa_columns::luffa_columns_from_message(block, dump)
}

// A message block's columns injected into a state's.
#[unsafe(no_mangle)]
pub extern "C" fn luffa_columns_inject(code: usize, dump: &mut [u8], message: &[u8]) -> u32
    ensures { record { number = result; buffer = dump.new } ≡ inject_outcome code dump.old message.now }
{
    luffa_columns::luffa_columns_inject(code, dump, message)
}

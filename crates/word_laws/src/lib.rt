//! Laws of the command line that no program cites: arguments form one command or break a rule, and never both; and the
//! rules, stated for the words themselves.
#![tactic(auto)]

mod laws;

pub use laws::{
    a_stray_option_has_no_form_of_the_verb, a_value_is_lacking_where_none_follows,
    an_option_occurs_twice_where_two_words_are_it, the_other_words_are_the_operands,
    the_rules_are_over_the_words, the_texts_of_an_option_are_given_by_its_words,
    words_form_one_command,
};

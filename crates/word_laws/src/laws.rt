//! Laws of the words of a command line: which form a command, and which of those after a verb are stray, lack a value
//! or are operands.

ghost use Rattle.std.specs.Prelude.{◌∷◌, ◌≡◌, ◌⊎◌, ◌↔◌, ◌+◌, ℕ, IsTrue, List, None, Some, [], length, map};
ghost use Rattle.std.specs.List.{filter, list_any};
ghost use Rattle.ptg_base.specs.Lists.{IsIn};
ghost use Rattle.ptg_words.specs.Parts.{has_twice, is_lacking, is_stray, operands, parts, shards, texts_of, workers};
ghost use Rattle.ptg_words.specs.declared.verbs.Verb.{Verb};
ghost use Rattle.ptg_words.specs.Words.{IsUsage, options_of, verb_of};
ghost use Rattle.word_laws.specs.Commands.{NeverBoth, OneCommand, CommandOrUsage};
ghost use Rattle.word_laws.specs.Forms.{HasForm, IsPreload, IsShards, IsTextOfShards, IsTextOfWorkers, IsWorkers, LacksValue, OccursTwice, begins_with_dash, is_other, is_value, with_previous};
ghost use Rattle.word_laws.specs.Rules.{BreaksRule};

/// A law: arguments form one command or break a rule, and never both.
pub fn words_form_one_command()
    ensures one { OneCommand }
    ensures never_both { NeverBoth }
    ensures some { CommandOrUsage }
{}

/// A law: there is a stray word if and only if some word has a form that the verb does not have.
pub fn a_stray_option_has_no_form_of_the_verb()
    ensures { (verb : Verb) (words : List (List ℕ))
        → IsTrue (list_any is_stray (parts (options_of verb) words))
        ↔ ((word : List ℕ) × IsIn word words × (HasForm verb word → ⊥)) }
{}

/// A law: a value is lacking if and only if no value follows some option that takes the next word: it is the last word,
/// or the next one begins with `-`.
pub fn a_value_is_lacking_where_none_follows()
    ensures { (verb : Verb) (words : List (List ℕ))
        → IsTrue (list_any is_lacking (parts (options_of verb) words)) ↔ LacksValue verb words }
{}

/// A law: the operands are the words that are neither options nor values, in their order. So operands, words that begin
/// with `-`, and values together are as many as the words.
pub fn the_other_words_are_the_operands()
    ensures which { (verb : Verb) (words : List (List ℕ))
        → operands (parts (options_of verb) words)
        ≡ map (λ ((before, word) : List ℕ × List ℕ). word) (filter (is_other verb) (with_previous words)) }
    ensures count { (verb : Verb) (words : List (List ℕ))
        → length (operands (parts (options_of verb) words))
        + (length (filter begins_with_dash words) + length (filter (is_value verb) (with_previous words)))
        ≡ length words }
{}

/// A law: an option occurs twice if and only if two words are the same option of the verb, alone or with a text after
/// `=`.
pub fn an_option_occurs_twice_where_two_words_are_it()
    ensures { (verb : Verb) (words : List (List ℕ))
        → IsTrue (has_twice (parts (options_of verb) words))
        ↔ (OccursTwice (IsWorkers verb) words
        ⊎ (OccursTwice (IsShards verb) words ⊎ OccursTwice (IsPreload verb) words)) }
{}

/// A law: the texts of an option with a number are those that its words give: `--NAME=TEXT`, or `--NAME` and then a
/// word that does not begin with `-`.
pub fn the_texts_of_an_option_are_given_by_its_words()
    ensures workers { (verb : Verb) (words : List (List ℕ)) (text : List ℕ)
        → IsIn text (texts_of workers (parts (options_of verb) words)) ↔ IsTextOfWorkers verb words text }
    ensures shards { (verb : Verb) (words : List (List ℕ)) (text : List ℕ)
        → IsIn text (texts_of shards (parts (options_of verb) words)) ↔ IsTextOfShards verb words text }
{}

/// A law: arguments are a usage error if there is no first word, or it is no verb. Else they are one if and only if
/// they break a rule that is stated for the words themselves.
pub fn the_rules_are_over_the_words()
    ensures none { IsUsage [] }
    ensures no_verb { (first : List ℕ) (words : List (List ℕ)) → verb_of first ≡ None → IsUsage (first ∷ words) }
    ensures rules { (verb : Verb) (first : List ℕ) (words : List (List ℕ)) → verb_of first ≡ Some verb
        → IsUsage (first ∷ words) ↔ BreaksRule verb first words }
{}

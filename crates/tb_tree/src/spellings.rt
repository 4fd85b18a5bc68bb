//! What a word and a mark are to the grammar, by their spelling.

ghost use Rattle.std.specs.Prelude.{◌≡◌};
ghost use Rattle.std.specs.Str.{bytes_eq};
ghost use Rattle.tb_tree.specs.Words as spec;

use crate::marks::Mark;
use crate::words::Word;

fn is(spelled: &[u8], wanted: &[u8]) -> bool
    ensures { result ≡ bytes_eq spelled.now wanted.now }
{
    spelled == wanted
}

#[tactic(auto, unfolding(crate::specs::Words::early_word))]
fn early_word(spelled: &[u8]) -> Option<Word>
    ensures { result ≡ spec.early_word spelled.now }
{
    if is(spelled, b"break") {
        Some(Word::Break)
    } else if is(spelled, b"case") {
        Some(Word::Case)
    } else if is(spelled, b"class") {
        Some(Word::Class)
    } else if is(spelled, b"const") {
        Some(Word::Const)
    } else if is(spelled, b"continue") {
        Some(Word::Continue)
    } else if is(spelled, b"default") {
        Some(Word::Default)
    } else if is(spelled, b"do") {
        Some(Word::Do)
    } else if is(spelled, b"else") {
        Some(Word::Else)
    } else if is(spelled, b"export") {
        Some(Word::Export)
    } else if is(spelled, b"extends") {
        Some(Word::Extends)
    } else {
        None
    }
}

#[tactic(auto, unfolding(crate::specs::Words::middle_word))]
fn middle_word(spelled: &[u8]) -> Option<Word>
    ensures { result ≡ spec.middle_word spelled.now }
{
    if is(spelled, b"false") {
        Some(Word::False)
    } else if is(spelled, b"for") {
        Some(Word::For)
    } else if is(spelled, b"function") {
        Some(Word::Function)
    } else if is(spelled, b"if") {
        Some(Word::If)
    } else if is(spelled, b"implements") {
        Some(Word::Implements)
    } else if is(spelled, b"import") {
        Some(Word::Import)
    } else if is(spelled, b"interface") {
        Some(Word::Interface)
    } else if is(spelled, b"let") {
        Some(Word::Let)
    } else if is(spelled, b"new") {
        Some(Word::New)
    } else if is(spelled, b"null") {
        Some(Word::Null)
    } else if is(spelled, b"return") {
        Some(Word::Return)
    } else {
        None
    }
}

#[tactic(auto, unfolding(crate::specs::Words::late_word))]
fn late_word(spelled: &[u8]) -> Option<Word>
    ensures { result ≡ spec.late_word spelled.now }
{
    if is(spelled, b"static") {
        Some(Word::Static)
    } else if is(spelled, b"switch") {
        Some(Word::Switch)
    } else if is(spelled, b"this") {
        Some(Word::This)
    } else if is(spelled, b"throw") {
        Some(Word::Throw)
    } else if is(spelled, b"true") {
        Some(Word::True)
    } else if is(spelled, b"typeof") {
        Some(Word::Typeof)
    } else if is(spelled, b"undefined") {
        Some(Word::Undefined)
    } else if is(spelled, b"void") {
        Some(Word::Void)
    } else if is(spelled, b"while") {
        Some(Word::While)
    } else {
        None
    }
}

#[tactic(auto, unfolding(crate::specs::Words::other_word))]
fn other_word(spelled: &[u8]) -> Option<Word>
    ensures { result ≡ spec.other_word spelled.now }
{
    if is(spelled, b"await") {
        Some(Word::Reserved)
    } else if is(spelled, b"catch") {
        Some(Word::Reserved)
    } else if is(spelled, b"debugger") {
        Some(Word::Reserved)
    } else if is(spelled, b"delete") {
        Some(Word::Reserved)
    } else if is(spelled, b"enum") {
        Some(Word::Reserved)
    } else if is(spelled, b"finally") {
        Some(Word::Reserved)
    } else if is(spelled, b"in") {
        Some(Word::Reserved)
    } else if is(spelled, b"instanceof") {
        Some(Word::Reserved)
    } else if is(spelled, b"package") {
        Some(Word::Reserved)
    } else if is(spelled, b"private") {
        Some(Word::Reserved)
    } else {
        None
    }
}

#[tactic(auto, unfolding(crate::specs::Words::last_word))]
fn last_word(spelled: &[u8]) -> Option<Word>
    ensures { result ≡ spec.last_word spelled.now }
{
    if is(spelled, b"protected") {
        Some(Word::Reserved)
    } else if is(spelled, b"public") {
        Some(Word::Reserved)
    } else if is(spelled, b"super") {
        Some(Word::Reserved)
    } else if is(spelled, b"try") {
        Some(Word::Reserved)
    } else if is(spelled, b"var") {
        Some(Word::Reserved)
    } else if is(spelled, b"with") {
        Some(Word::Reserved)
    } else if is(spelled, b"yield") {
        Some(Word::Reserved)
    } else {
        None
    }
}

#[tactic(auto, unfolding(crate::specs::Words::type_word))]
fn type_word(spelled: &[u8]) -> Option<Word>
    ensures { result ≡ spec.type_word spelled.now }
{
    if is(spelled, b"any") {
        Some(Word::Any)
    } else if is(spelled, b"boolean") {
        Some(Word::Boolean)
    } else if is(spelled, b"never") {
        Some(Word::Never)
    } else if is(spelled, b"number") {
        Some(Word::Number)
    } else if is(spelled, b"string") {
        Some(Word::String)
    } else if is(spelled, b"unknown") {
        Some(Word::Unknown)
    } else {
        None
    }
}

#[tactic(auto, unfolding(crate::specs::Words::named_word))]
fn named_word(spelled: &[u8]) -> Option<Word>
    ensures { result ≡ spec.named_word spelled.now }
{
    if is(spelled, b"as") {
        Some(Word::As)
    } else if is(spelled, b"constructor") {
        Some(Word::Constructor)
    } else if is(spelled, b"declare") {
        Some(Word::Declare)
    } else if is(spelled, b"from") {
        Some(Word::From)
    } else if is(spelled, b"of") {
        Some(Word::Of)
    } else if is(spelled, b"readonly") {
        Some(Word::Readonly)
    } else if is(spelled, b"type") {
        Some(Word::Type)
    } else {
        None
    }
}

fn reserved_word(spelled: &[u8]) -> Option<Word>
    ensures { result ≡ spec.reserved_word spelled.now }
{
    if let Some(word) = early_word(spelled) {
        return Some(word);
    }
    if let Some(word) = middle_word(spelled) {
        return Some(word);
    }
    late_word(spelled)
}

fn unnamed_word(spelled: &[u8]) -> Option<Word>
    ensures { result ≡ spec.unnamed_word spelled.now }
{
    if let Some(word) = other_word(spelled) {
        return Some(word);
    }
    last_word(spelled)
}

fn free_word(spelled: &[u8]) -> Option<Word>
    ensures { result ≡ spec.free_word spelled.now }
{
    if let Some(word) = type_word(spelled) {
        return Some(word);
    }
    named_word(spelled)
}

/// What a word is, by its spelling.
pub fn word_of(spelled: &[u8]) -> Word
    ensures { result ≡ spec.word_of spelled.now }
{
    if let Some(word) = reserved_word(spelled) {
        return word;
    }
    if let Some(word) = unnamed_word(spelled) {
        return word;
    }
    match free_word(spelled) {
        Some(word) => word,
        None => Word::Name,
    }
}

#[tactic(auto, unfolding(crate::specs::Words::bracket))]
fn bracket(spelled: &[u8]) -> Option<Mark>
    ensures { result ≡ spec.bracket spelled.now }
{
    if is(spelled, b"{") {
        Some(Mark::OpenBrace)
    } else if is(spelled, b"}") {
        Some(Mark::CloseBrace)
    } else if is(spelled, b"(") {
        Some(Mark::OpenParen)
    } else if is(spelled, b")") {
        Some(Mark::CloseParen)
    } else if is(spelled, b"[") {
        Some(Mark::OpenBracket)
    } else if is(spelled, b"]") {
        Some(Mark::CloseBracket)
    } else if is(spelled, b".") {
        Some(Mark::Dot)
    } else if is(spelled, b";") {
        Some(Mark::Semicolon)
    } else if is(spelled, b",") {
        Some(Mark::Comma)
    } else if is(spelled, b":") {
        Some(Mark::Colon)
    } else if is(spelled, b"?") {
        Some(Mark::Question)
    } else if is(spelled, b"=>") {
        Some(Mark::Arrow)
    } else if is(spelled, b"|") {
        Some(Mark::Bar)
    } else {
        None
    }
}

#[tactic(auto, unfolding(crate::specs::Words::joining))]
fn joining(spelled: &[u8]) -> Option<Mark>
    ensures { result ≡ spec.joining spelled.now }
{
    if is(spelled, b"<") {
        Some(Mark::Less)
    } else if is(spelled, b">") {
        Some(Mark::Greater)
    } else if is(spelled, b"<=") {
        Some(Mark::LessEqual)
    } else if is(spelled, b">=") {
        Some(Mark::GreaterEqual)
    } else if is(spelled, b"===") {
        Some(Mark::Same)
    } else if is(spelled, b"!==") {
        Some(Mark::NotSame)
    } else if is(spelled, b"+") {
        Some(Mark::Plus)
    } else if is(spelled, b"-") {
        Some(Mark::Minus)
    } else if is(spelled, b"*") {
        Some(Mark::Star)
    } else if is(spelled, b"/") {
        Some(Mark::Slash)
    } else if is(spelled, b"%") {
        Some(Mark::Percent)
    } else {
        None
    }
}

#[tactic(auto, unfolding(crate::specs::Words::operator))]
fn operator(spelled: &[u8]) -> Option<Mark>
    ensures { result ≡ spec.operator spelled.now }
{
    if is(spelled, b"++") {
        Some(Mark::PlusPlus)
    } else if is(spelled, b"--") {
        Some(Mark::MinusMinus)
    } else if is(spelled, b"!") {
        Some(Mark::Not)
    } else if is(spelled, b"&&") {
        Some(Mark::And)
    } else if is(spelled, b"||") {
        Some(Mark::Or)
    } else if is(spelled, b"??") {
        Some(Mark::Nullish)
    } else if is(spelled, b"=") {
        Some(Mark::Assign)
    } else if is(spelled, b"+=") {
        Some(Mark::PlusAssign)
    } else if is(spelled, b"-=") {
        Some(Mark::MinusAssign)
    } else if is(spelled, b"*=") {
        Some(Mark::StarAssign)
    } else if is(spelled, b"/=") {
        Some(Mark::SlashAssign)
    } else if is(spelled, b"%=") {
        Some(Mark::PercentAssign)
    } else {
        None
    }
}

/// The mark that is spelled so, if it is one.
pub fn mark_of(spelled: &[u8]) -> Option<Mark>
    ensures { result ≡ spec.mark_of spelled.now }
{
    if let Some(mark) = bracket(spelled) {
        return Some(mark);
    }
    if let Some(mark) = joining(spelled) {
        return Some(mark);
    }
    operator(spelled)
}

/// Whether a word may name a variable.
pub fn is_name(word: Word) -> bool
    ensures { result ≡ spec.is_name word }
{
    match word {
        Word::Any => true,
        Word::Boolean => true,
        Word::Never => true,
        Word::Number => true,
        Word::String => true,
        Word::Unknown => true,
        Word::As => true,
        Word::Constructor => true,
        Word::Declare => true,
        Word::From => true,
        Word::Of => true,
        Word::Readonly => true,
        Word::Type => true,
        Word::Name => true,
        _ => false,
    }
}

/// Whether a word may name an interface or an alias.
pub fn is_type_name(word: Word) -> bool
    ensures { result ≡ spec.is_type_name word }
{
    match word {
        Word::Any => false,
        Word::Boolean => false,
        Word::Never => false,
        Word::Number => false,
        Word::String => false,
        Word::Unknown => false,
        other => is_name(other),
    }
}

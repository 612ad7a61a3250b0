//! A law of the definitions. Its function does nothing.

ghost use Rattle.dt_syntax.specs.TextTokens.{TextTokensAreTextWords};

/// The texts that the lexer finds are the text words of lines.
pub fn texts_are_text_words()
    ensures { TextTokensAreTextWords }
{}

//! Templates decide words.
ghost use Rattle.std.specs.Prelude.{◌≡◌};
ghost use Rattle.grammar.specs.Theorems.{TemplateDecidesWords};

/// A list of types is a word of a pattern exactly when its template leads along it. Answers 0.
pub fn template_decides_words() -> u8
    ensures { (result ≡ 0) × TemplateDecidesWords }
{
    0
}

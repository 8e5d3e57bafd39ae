//! What the definitions say of the texts of values.

ghost use Rattle.std.specs.Prelude.{◌≡◌, map};
ghost use Rattle.vxcat_store.specs.RowText.{value_text};
ghost use Rattle.vx_tests.specs.Texts.{shown_values};

/// The texts of values of each kind, by their types.
pub fn worked_texts()
    ensures { map (λ v. value_text v.value v.dtype) shown_values ≡ map (λ v. v.text) shown_values }
{}

// The form of a trace as a number: 1 or 2.
ghost use Rattle.std.specs.Prelude.{◌≡◌};
ghost use Rattle.lent.specs.FormWords.{form_number, is_form, form_of};

use format::Form;

// Whether a form has the number.
pub fn is_form(number: u64) -> bool
    ensures { result ≡ is_form number }
{
    if number == 1 {
        return true;
    }
    number == 2
}

// The form of 2, or of 1.
pub fn form_of(number: u64) -> Form
    ensures { result ≡ form_of number }
{
    if number == 2 {
        return Form::Two;
    }
    Form::One
}

// And back.
pub fn number_of(form: Form) -> u64
    ensures { result ≡ form_number form }
{
    match form {
        Form::One => 1,
        Form::Two => 2,
    }
}

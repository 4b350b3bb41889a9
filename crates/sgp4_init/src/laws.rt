//! Laws of the constants of an element set.

ghost use Rattle.sgp4_init.specs.ConstantsExist.{ConstantsExist};
ghost use Rattle.sgp4_init.specs.FormLaws.{AcceptedConstantsAreNotSimple, ConstantsAreOfOneForm, ConstantsHaveTheFormOfTheirMotion};

/// The constants of a set exist, where it is ordinary, between the limits of the mean motion, and near the Earth.
pub fn constants_exist()
    ensures { ConstantsExist }
{}

/// Constants are of the simple form exactly where their recovered motion is.
pub fn constants_have_the_form_of_their_motion()
    ensures { ConstantsHaveTheFormOfTheirMotion }
{}

/// Of a set of one form all constants are simple, or none are.
pub fn constants_are_of_one_form()
    ensures { ConstantsAreOfOneForm }
{}

/// With a least accepted perigee of 300 km, no constants of a set that is near the Earth are simple.
pub fn accepted_constants_are_not_simple()
    ensures { AcceptedConstantsAreNotSimple }
{}

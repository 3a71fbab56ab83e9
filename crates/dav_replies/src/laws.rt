ghost use Rattle.dav_replies.specs.Laws.{CodesAreInOrder, StatusesHaveReasons, EndingCodes, MethodsReadBack};

/// The refusals' codes are 1 to 29 in their order.
pub fn codes_are_in_order()
    ensures { CodesAreInOrder }
{}

/// The status of each refusal has a reason phrase.
pub fn statuses_have_reasons()
    ensures { StatusesHaveReasons }
{}

/// The refusals with the codes 1, 19 and 21 end the connection, and no others do.
pub fn ending_codes()
    ensures { EndingCodes }
{}

/// Each method is read by its own name.
#[tactic(auto, unfolding(crate::specs::Methods::method_of))]
pub fn methods_read_back()
    ensures { MethodsReadBack }
{}

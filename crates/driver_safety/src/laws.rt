//! The laws.
ghost use Rattle.driver_safety.specs.AskLaw.{EachCallIsLawful, EachHandlerTakesANumber, EachTextIsReadable};
ghost use Rattle.driver_safety.specs.AssignmentLaw.{EachAssignmentIsSound};
ghost use Rattle.driver_safety.specs.CallLaw.{EachCallIsSound, EachReturnIsSound};
ghost use Rattle.driver_safety.specs.DeclarationLaws.{EachFunctionHasHead, EachFunctionHasSlots, EachTableHasTypes};
ghost use Rattle.driver_safety.specs.EntryLaw.{EachFirstFrameIsGood};
ghost use Rattle.driver_safety.specs.ExpressionLaw.{EachPlaceIsSound, EachValueIsSound};
ghost use Rattle.driver_safety.specs.FirstDriver.{EachTextCanBeLoaded};
ghost use Rattle.driver_safety.specs.GrantLaw.{EachGrantKeepsMemory};
ghost use Rattle.driver_safety.specs.KernelLaw.{EachAnswerIsTaken};
ghost use Rattle.driver_safety.specs.LoadLaw.{EachLoadIsGood};
ghost use Rattle.driver_safety.specs.OutsideLaw.{EachStepStaysInside};
ghost use Rattle.driver_safety.specs.ResultLaw.{EachResultIsTaken};
ghost use Rattle.driver_safety.specs.RunLaw.{EachRunIsSafe};
ghost use Rattle.driver_safety.specs.StepLaw.{EachAnswerLeavesGood, EachGrantLeavesGood, EachStartIsGood, EachStepIsSafe};
ghost use Rattle.driver_safety.specs.UnionArms.{EachReadUnitHasArms};
ghost use Rattle.driver_safety.specs.ZeroLaw.{EachZeroIsSound};

/// An expression that the rules derive is, in a good state, what they take it for, or one of its checks fails: it is never wild. A place lies in a granted block, where its
/// type is declared; an array lies in one with all its elements; an arm of a union is one that the tag selects.
pub fn every_place_is_sound()
    ensures { EachPlaceIsSound }
{}

/// And so is its value: an integer is in the range of its type, a pointer is null, points into text, or lies between its bounds in one granted block, whole elements past
/// the low one; each whole element between the bounds is a place of its type of which no annotation, no tag and no union speaks.
pub fn every_value_is_sound()
    ensures { EachValueIsSound }
{}

/// An assignment, in a good state, fails a check or leaves a good state: what is assigned fits the type of its place; each pointer of the function or struct whose
/// annotation names the place fits with the new value; a tag keeps its value, or all bytes of its union are 0; and a text keeps its end.
pub fn every_assignment_is_sound()
    ensures { EachAssignmentIsSound }
{}

/// And so does `zero(l)`: afterwards each arm that a tag may select holds 0, and no other member has changed.
pub fn every_zero_is_sound()
    ensures { EachZeroIsSound }
{}

/// A call of a function, in a good state, fails a check or hands over what the parameters take: an integer in the range of its type, a pointer within the bounds that its
/// parameter has by the very arguments that the names of the annotation stand for. The state stays.
pub fn every_call_is_sound()
    ensures { EachCallIsSound }
{}

/// `return`, in a good state, fails a check or gives back what the result takes. The state stays.
pub fn every_return_is_sound()
    ensures { EachReturnIsSound }
{}

/// The first frame of a function that is called with what its parameters take is good: each parameter fits by the names of the function's own slots, and all other slots are 0.
pub fn every_first_frame_is_good()
    ensures { EachFirstFrameIsGood }
{}

/// The local that takes what a function gives back keeps its frame good: no annotation names it, and the annotation of a result is constant.
pub fn every_result_is_taken()
    ensures { EachResultIsTaken }
{}

/// And so does the local that takes the kernel's answer: a number, or null, or a pointer to new elements in a block that is granted.
pub fn every_answer_is_taken()
    ensures { EachAnswerIsTaken }
{}

/// The table of each text whose unions have arms is what the laws take it for: members lie apart or are arms of one union, annotations name integers and other pointers of
/// their own struct, each arm of a union has a constant of its own, and so on.
pub fn every_table_has_its_types()
    ensures { EachTableHasTypes }
{}

/// Each union of a unit that words spell has an arm.
pub fn every_unit_has_arms()
    ensures { EachReadUnitHasArms }
{}

/// The slots of each function whose declarations stand are what the laws take them for: annotations name integers and other pointers of the function, and each automatic
/// pointer has two hidden slots of its own.
pub fn every_function_has_its_slots()
    ensures { EachFunctionHasSlots }
{}

/// And so are its parameters and its result: annotations of parameters count integer parameters, that of a result is constant, and the parameters have the first slots.
pub fn every_function_has_its_head()
    ensures { EachFunctionHasHead }
{}

/// No step of an accepted driver is wild: a step of a good activity over a good memory goes on with a good activity and memory, asks the kernel, ends, or fails at a line.
pub fn every_step_is_safe()
    ensures { EachStepIsSafe }
{}

/// With the kernel's answer an activity that asked is good, where the kernel granted more blocks or none.
pub fn every_answer_leaves_good()
    ensures { EachAnswerLeavesGood }
{}

/// And so is every other activity.
pub fn every_grant_leaves_good()
    ensures { EachGrantLeavesGood }
{}

/// And so is the memory, where a block of new elements is granted whose bytes are 0, apart from all others.
pub fn every_grant_keeps_the_memory()
    ensures { EachGrantKeepsMemory }
{}

/// What a call from outside starts is good, where the function's parameters are integers: the call at the load, of a handler, of a command.
pub fn every_start_is_good()
    ensures { EachStartIsGood }
{}

/// The memory behind a load is good: each block of the load image is granted where it lies, and holds what fits its type.
pub fn every_load_is_good()
    ensures { EachLoadIsGood }
{}

/// What a good activity asks of the kernel is lawful: `prints` is given null or the address of a byte of text, a handler is a function of one `int` without a result, and
/// `kalloc` is asked for elements of a type of the text, with its size.
pub fn every_call_of_the_kernel_is_lawful()
    ensures { EachCallIsLawful }
{}

/// So the kernel may call a handler with any number: such a call from outside may begin.
pub fn every_handler_takes_a_number()
    ensures { EachHandlerTakesANumber }
{}

/// And it may read a text from any of its bytes on: each byte up to the first 0 was granted.
pub fn every_text_is_readable()
    ensures { EachTextIsReadable }
{}

/// A step changes no byte that was not granted: of whatever unit, in whatever state.
pub fn every_step_stays_inside()
    ensures { EachStepStaysInside }
{}

/// No run of a loaded driver is wild. Whatever happens next, in whatever order (any of its activities takes a step, ends or is answered; a block is granted; a call from
/// outside begins), its memory and all its activities stay good, each byte outside its blocks stays 0, and no step of any of them is wild.
pub fn every_run_is_safe()
    ensures { EachRunIsSafe }
{}

/// And each text whose types are laid out can be loaded so: in a memory of zeros that has room, where its image is copied in and each block of it is granted.
pub fn every_text_can_be_loaded()
    ensures { EachTextCanBeLoaded }
{}

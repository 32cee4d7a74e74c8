//! Laws of the first fault, and of parts without a fault.

ghost use Rattle.std.specs.Prelude.{◌≡◌, ◌++◌, List, [], Some, None, false};
ghost use Rattle.ptg_base.specs.Lists.{IsIn};
ghost use Rattle.jdf_lex.specs.declared.fault.JdfFault.{JdfFault};
ghost use Rattle.type_rules.specs.Faults.{is_before, earlier_of, first_fault};
ghost use Rattle.check_laws.specs.Laws.{ArgumentsAreResolved, ClassIsResolved, EachBodyIsRead, EachHasPlanOrFault, ElementIsResolved, FlowIsResolved, IndicesAreResolved, OptionIsResolved, SpaceIsResolved};

/// A law: the first of some faults is one of them, and none of them comes before it. The first fault of two lists
/// together is the earlier of their first faults. Only an empty list has none. If neither of two faults comes before
/// the other, they are equal.
pub fn the_first_fault_is_the_least()
    ensures one { (faults : List JdfFault) (f : JdfFault) → first_fault faults ≡ Some f → IsIn f faults }
    ensures least { (faults : List JdfFault) (f g : JdfFault) → first_fault faults ≡ Some f → IsIn g faults
        → is_before g f ≡ false }
    ensures together { (fs gs : List JdfFault) → first_fault (fs ++ gs) ≡ earlier_of (first_fault fs) (first_fault gs) }
    ensures none { (faults : List JdfFault) → first_fault faults ≡ None → faults ≡ [] }
    ensures order { (f g : JdfFault) → is_before f g ≡ false → is_before g f ≡ false → f ≡ g }
{}

/// A law: arguments, indices, expressions and spaces that break no rule are resolved.
pub fn names_without_faults_are_resolved()
    ensures arguments { ArgumentsAreResolved }
    ensures indices { IndicesAreResolved }
    ensures option { OptionIsResolved }
    ensures space { SpaceIsResolved }
{}

/// A law: elements and flows that break no rule are resolved.
pub fn flows_without_faults_are_resolved()
    ensures element { ElementIsResolved }
    ensures flow { FlowIsResolved }
{}

/// A law: a class that breaks no rule is resolved.
pub fn classes_without_faults_are_resolved()
    ensures { ClassIsResolved }
{}

/// A law: reading the body of a class within the limits of its text always has a result, whatever its tokens are: a
/// body, or a first fault.
pub fn each_body_is_read()
    ensures { EachBodyIsRead }
{}

/// A law: each JDF within the limits of its text, with well made data, has a plan or a first fault.
pub fn a_job_has_a_plan_or_a_fault()
    ensures { EachHasPlanOrFault }
{}

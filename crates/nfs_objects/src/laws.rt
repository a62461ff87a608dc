//! The laws of attempts, and of comparisons.

ghost use Rattle.nfs_objects.specs.Bound.{AsksFew, GrownHaveNumbers, NamesFew, NamesStay};
ghost use Rattle.nfs_objects.specs.Derived.{TellsApart, address_test, context_test, leaf_test, mode_test};
ghost use Rattle.nfs_objects.specs.Derived.{mount_test, number_test};
ghost use Rattle.nfs_objects.specs.ModeLaws.{GrowsSuitably, RenamesHoldTheirs, RenamesShareOthers, StartsSuitably};

/// The view of a call, which grows by what its attempts ask for, and all that the next attempt asks for lie among the
/// addresses where something stands and at most 256 others: those that the call names, and those of its new numbers. It
/// is so for every attempt that `Attempts` allows, in every sound store that the view fits, and also where only a part
/// of the addresses that are asked for is given. What a call names may follow from what it has read, and it names that
/// still as it reads more.
pub fn calls_ask_few()
    ensures asked { AsksFew }
    ensures named { NamesFew }
    ensures stay { NamesStay }
{}

/// A view that holds what it has as its call wants holds it so still, once some of what an attempt asked for was given
/// in the modes that were asked: no call ever wants what it holds in a stronger mode. A new view holds nothing.
pub fn grown_views_suit()
    ensures first { StartsSuitably }
    ensures grown { GrowsSuitably }
{}

/// RENAME wants alone both directories and what its names lead to there. Once its view has these, it asks for other
/// inodes shared: those above its target, which it only reads.
pub fn renames_share_what_they_only_read()
    ensures alone { RenamesHoldTheirs }
    ensures shared { RenamesShareOthers }
{}

/// The comparisons that are derived pass where both values are one, and nowhere else.
pub fn comparisons_decide()
    ensures addresses { TellsApart address_test }
    ensures modes { TellsApart mode_test }
    ensures numbers { TellsApart number_test }
    ensures leaves { TellsApart leaf_test }
    ensures mounts { TellsApart mount_test }
    ensures contexts { TellsApart context_test }
{}

/// A view that grew by rounds has no new number yet, or all that its call wants.
pub fn grown_views_have_numbers()
    ensures { GrownHaveNumbers }
{}

//! Laws of alike sites: each says what its definitions give, and does nothing.

ghost use Rattle.alike_sites.specs.Laws.{AlikeHistoriesGiveOneVerdict, FlatSitesAreAlike, AlikeSitesShowTheSame, AlikeSitesTakeTheSame, OldOperationsChangeNothing, AlikeSitesReleaseTheSame, AlikeSitesMakeTheSame};

/// An operation that is judged alike gets one verdict over both histories.
pub fn alike_histories_give_one_verdict()
    ensures { AlikeHistoriesGiveOneVerdict }
{}

/// The site of a valid history at which nothing waits, and the one of the same number with its flat history, are alike.
pub fn flat_sites_are_alike()
    ensures { FlatSitesAreAlike }
{}

/// The other one of two alike sites is sound too, and both show the same.
pub fn alike_sites_show_the_same()
    ensures { AlikeSitesShowTheSame }
{}

/// An operation that was made after all that the histories of two alike sites begin with gets one verdict at both, and
/// leaves them alike.
pub fn alike_sites_take_the_same()
    ensures { AlikeSitesTakeTheSame }
{}

/// An operation whose member the history has changes nothing.
pub fn old_operations_change_nothing()
    ensures { OldOperationsChangeNothing }
{}

/// Two alike sites release the same operation with the same verdict, and stay alike, or neither releases one.
pub fn alike_sites_release_the_same()
    ensures { AlikeSitesReleaseTheSame }
{}

/// Two alike sites make the same operations, or refuse to for the same reason; what they make was made after all that
/// their histories begin with.
pub fn alike_sites_make_the_same()
    ensures { AlikeSitesMakeTheSame }
{}

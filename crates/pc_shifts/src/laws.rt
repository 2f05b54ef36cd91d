//! Laws of windows that are equal up to a shift. No function here does anything: each one's contract
//! is a law, and that it is proved is all that it is for.
ghost use Rattle.pc_shifts.specs.Laws.{AlikeFormsAreAsLong, SumsKeepAlikeForms, CombiningKeepsAlikeForms, AlikeTreesUseAlikeNames, UsedNamesCount, TidyingKeepsAlikeTrees, GraftingKeepsAlikeTrees};
ghost use Rattle.pc_shifts.specs.Laws.{OpenedFormsAreNormal, FillingKeepsNormalForms, CuttingKeepsNormalForms, RebasingKeepsNormalForms};
ghost use Rattle.pc_shifts.specs.Laws.{UnwindingKeepsNormalForms, TidyingKeepsNormalForms, RenumberingKeepsNormalForms, UnwindingKeepsShifts, SettlingKeepsShifts, KnownWindowsSettleAlike};

/// Forms that are alike have as many terms, and what combines forms makes of such forms such ones.
pub fn laws_of_forms()
    ensures long { AlikeFormsAreAsLong }
    ensures sums { SumsKeepAlikeForms }
    ensures combined { CombiningKeepsAlikeForms }
{}

/// Trees that are alike use names that correspond, are alike by any names that correspond where
/// those do that are used, and have tidied trees that are alike. A region's tree that is grafted from
/// alike supplies of names, at alike homes of its variables, is alike.
pub fn laws_of_trees()
    ensures used { AlikeTreesUseAlikeNames }
    ensures only { UsedNamesCount }
    ensures tidied { TidyingKeepsAlikeTrees }
    ensures grafted { GraftingKeepsAlikeTrees }
{}

/// Where one of two windows that are equal up to a shift is unwound, and tidied, so is the other, to
/// a window that is equal to it up to a shift; names that correspond then did so before. So what is
/// known of one is known of each window with its key.
pub fn laws_of_windows()
    ensures unwound { UnwindingKeepsShifts }
    ensures settled { SettlingKeepsShifts }
    ensures known { KnownWindowsSettleAlike }
{}

/// Every window of a search has the terms of its forms in normal form: those that regions are opened
/// as, and what each step makes of a window that has.
pub fn laws_of_normal_forms()
    ensures opened { OpenedFormsAreNormal }
    ensures filled { FillingKeepsNormalForms }
    ensures cut { CuttingKeepsNormalForms }
    ensures rebased { RebasingKeepsNormalForms }
    ensures unwound { UnwindingKeepsNormalForms }
    ensures tidied { TidyingKeepsNormalForms }
    ensures renumbered { RenumberingKeepsNormalForms }
{}

//! The laws of kept texts: which modules they come to, and which book contents read as, is one, and
//! what these modules say has exact suspects.
//!
//! **Model.** What configurations make is a relation in fm_modules, down to the graph of each rule
//! file (`ConfMakes`, `AreModulesOf`). So a claim that contents read as a book of such modules
//! speaks of some modules and of some book.
//!
//! **Laws.** A configuration makes one row ([`a_configuration_makes_one_row`]), which has the
//! graphs of its rule files ([`a_row_has_the_graphs_of_its_files`]), a list of configurations one
//! list of modules ([`configurations_make_one_list_of_modules`]), and the contents of six disks
//! read as one book, of one list of modules, where the modules are those that the book's own
//! configurations make ([`contents_read_as_one_book`]). So what such contents come to when they are
//! drained is a function of their bytes. The book that a store of such modules stands for, or that
//! contents read as, has exact suspects once it is drained, whatever entries it takes
//! ([`stores_have_exact_suspects`], [`contents_have_exact_suspects`]; what that is, is
//! `HasExactSuspects`, `specs/ExactSuspects.antt`). So it has with the entries that a crash leaves
//! of those that were taken since ([`images_have_exact_suspects`]).
//!
//! **Proof.** A text is one topology, by its definition, and one rule file but for where conditions
//! lie in memory (fm_sources_laws), which has one graph over a topology (ev_inst_laws). The modules
//! are a function of the rows. Contents spell one list of configurations, whatever the modules are,
//! and read as one book of given modules (fm_store). A module of kept texts begins in a lawful
//! state, since what a rule file comes to has a spelling (fm_esc_laws). What diagnosis modules say
//! along the entries of a book is a law of dx_along, and what their cases observe one of
//! dx_observed. Each law is the contract of a function without a body.
#![tactic(auto)]

mod laws;

pub use laws::{
    a_configuration_makes_one_row, a_row_has_the_graphs_of_its_files,
    configurations_make_one_list_of_modules, contents_have_exact_suspects,
    contents_read_as_one_book, images_have_exact_suspects, stores_have_exact_suspects,
};

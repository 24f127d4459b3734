mod files;
mod graphs;
mod labels;
mod orders;
mod references;
mod renaming;

// Laws of the writer of files: its blocks are held, and what it wrote is read back. Nothing here runs.
#![tactic(auto)]
